// Changing a packed text by a piece of itself.
ghost use Rattle.std.specs.Prelude.{◌≡◌, ◌+◌, ◌-◌, ◌≤◌, length, take, drop, slice_range};
ghost use Rattle.std.specs.List.{splice};
ghost use Rattle.area.specs.Pieces.{LiesClear};

use std::ops::Range;

// Replaces a part of the text by a piece of the text as it was before. Answers how many bytes the text has then.
pub fn splice_within(area: &mut [u8], used: usize, part: Range<usize>, piece: Range<usize>) -> usize
    requires part { (part.start ≤ part.end) × (part.end ≤ used) }
    requires piece { (piece.start ≤ piece.end) × (piece.end ≤ used) }
    requires clear { LiesClear part.start part.end piece.start piece.end }
    requires fits { (used ≤ length area.old) × (used - (part.end - part.start) + (piece.end - piece.start) ≤ length area.old) }
    ensures used { result + (part.end - part.start) ≡ used + (piece.end - piece.start) }
    ensures text { take result area.new ≡ splice (take used area.old) part.start part.end (slice_range (take used area.old) piece.start piece.end) }
    ensures past { drop result area.new ≡ drop result area.old }
    ensures len { length area.new ≡ length area.old }
{
    let Range { start, end } = part;
    let Range {
        start: from,
        end: to,
    } = piece;
    let behind = start + (to - from);
    if to <= start {
        area.copy_within(end..used, behind);
        area.copy_within(from..to, start);
    } else if end <= from {
        let moved = behind + (from - end);
        area.copy_within(end..used, behind);
        area.copy_within(moved..moved + (to - from), start);
    } else {
        area.copy_within(from..to, start);
        area.copy_within(end..used, behind);
    }
    behind + (used - end)
}
