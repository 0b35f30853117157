// Changing a packed text: the first `used` bytes of an area. Each function answers how many bytes the text has then.
ghost use Rattle.std.specs.Prelude.{◌≡◌, ◌+◌, ◌-◌, ◌≤◌, [], length, take, drop};
ghost use Rattle.std.specs.List.{splice};

use std::ops::Range;

// Replaces a part of the text by a piece.
pub fn splice(area: &mut [u8], used: usize, part: Range<usize>, piece: &[u8]) -> usize
    requires part { (part.start ≤ part.end) × (part.end ≤ used) }
    requires fits { (used ≤ length area.old) × (used - (part.end - part.start) + length piece.now ≤ length area.old) }
    ensures used { result + (part.end - part.start) ≡ used + length piece.now }
    ensures text { take result area.new ≡ splice (take used area.old) part.start part.end piece.now }
    ensures past { drop result area.new ≡ drop result area.old }
    ensures len { length area.new ≡ length area.old }
{
    let Range { start, end } = part;
    let behind = start + piece.len();
    area.copy_within(end..used, behind);
    area[start..behind].copy_from_slice(piece);
    behind + (used - end)
}

// Takes a part of the text out.
pub fn remove(area: &mut [u8], used: usize, part: Range<usize>) -> usize
    requires part { (part.start ≤ part.end) × (part.end ≤ used) }
    requires fits { used ≤ length area.old }
    ensures used { result + (part.end - part.start) ≡ used }
    ensures text { take result area.new ≡ splice (take used area.old) part.start part.end [] }
    ensures past { drop result area.new ≡ drop result area.old }
    ensures len { length area.new ≡ length area.old }
{
    let Range { start, end } = part;
    area.copy_within(end..used, start);
    start + (used - end)
}
