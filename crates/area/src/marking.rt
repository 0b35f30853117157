// Marking the matches of a text in another, in place.
ghost use Rattle.std.specs.Prelude.{◌≡◌, length, take};
ghost use Rattle.machine.specs.Strings.{with_mark, matches};

use crate::finding::begins;

#[derive(Clone, Copy, Debug, PartialEq, Eq)]
pub struct Marked {
    // The length of the marked text.
    pub len: usize,
    pub matches: usize,
}

// Writes one mark for each match, leftmost first and none across another; the rest moves down.
pub fn mark_matches(text: &mut [u8], sought: &[u8], mark: u8) -> Marked
    ensures text { take result.len text.new ≡ with_mark sought.now mark text.old }
    ensures marked_len { result.len ≡ length (with_mark sought.now mark text.old) }
    ensures matches { result.matches ≡ matches sought.now text.old }
    ensures len { length text.new ≡ length text.old }
{
    if sought.is_empty() {
        return Marked {
            len: text.len(),
            matches: 0,
        };
    }
    let mut read = 0;
    let mut len = 0;
    let mut matches = 0;
    while read < text.len() {
        if begins(&text[read..], sought) {
            text[len] = mark;
            matches += 1;
            read += sought.len();
        } else {
            text[len] = text[read];
            read += 1;
        }
        len += 1;
    }
    Marked { len, matches }
}
