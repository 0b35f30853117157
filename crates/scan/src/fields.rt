// The texts of the entries of a roll.
ghost use Rattle.std.specs.Prelude.{◌≡◌, ◌+◌, ◌-◌, ◌≤◌, take, drop, length};
ghost use Rattle.machine.specs.Scan.{field};

use machine::RollEntry;

// A part of a text, as far as the text has it.
fn part(text: &[u8], start: usize, end: usize) -> &[u8]
    ensures { result.now ≡ take (end - start) (drop start text.now) }
{
    text.get(start..end.min(text.len())).unwrap_or(&[])
}

// The text of an entry: up to where the next one begins, or to the end.
pub(crate) fn field<'a>(entries: &[RollEntry], left: &'a [u8], at: usize) -> &'a [u8]
    ensures { result.now ≡ field entries.now left.now at }
{
    match entries.get(at..) {
        Some([entry, next, ..]) => part(left, entry.at, next.at),
        Some([entry]) => part(left, entry.at, left.len()),
        _ => left,
    }
}

// The entries behind one.
pub(crate) fn behind(entries: &[RollEntry], at: usize) -> &[RollEntry]
    requires { at ≤ length entries.now }
    ensures { result.now ≡ drop (at + 1) entries.now }
{
    match &entries[at..] {
        [_, rest @ ..] => rest,
        [] => &[],
    }
}
