// The marks in a text: segment marks and creation marks.
ghost use Rattle.std.specs.Prelude.{◌≡◌, ◌≤◌, ◌<◌, length, take, drop, IfSome};
ghost use Rattle.std.specs.List.{list_any};
ghost use Rattle.code.specs.Meaning.{marked};
ghost use Rattle.machine.specs.Texts.{segment, creation, first_place, without_marks, highest_mark};

use code::Code;
use signs::Signs;

// Is this byte a segment mark or the creation mark?
pub fn is_mark<C: Code>(signs: &Signs<C>, byte: u8) -> bool
    ensures { result ≡ marked C.Code.meaning byte }
{
    byte == signs.creation_mark || signs.code.mark_number(byte).is_some()
}

// The place of the first segment mark.
pub fn segment_place<C: Code>(signs: &Signs<C>, text: &[u8]) -> Option<usize>
    ensures place { result ≡ first_place (segment C.Code.meaning) text.now }
    ensures within { IfSome result (λ k. k < length text.now) }
{
    text.iter()
        .position(|byte| signs.code.mark_number(*byte).is_some())
}

// The highest number of a segment mark in a body, or 0 where it has none.
pub fn highest_mark<C: Code>(signs: &Signs<C>, body: &[u8]) -> u8
    ensures { result ≡ highest_mark C.Code.meaning body.now }
{
    body.iter()
        .filter_map(|byte| signs.code.mark_number(*byte))
        .max()
        .unwrap_or(0)
}

// Has a text a creation mark?
pub fn has_creation_mark<C: Code>(signs: &Signs<C>, text: &[u8]) -> bool
    ensures { result ≡ list_any (creation C.Code.meaning) text.now }
{
    text.contains(&signs.creation_mark)
}

// The length of a text without its marks.
pub fn length_without_marks<C: Code>(signs: &Signs<C>, text: &[u8]) -> usize
    ensures len { result ≡ length (without_marks C.Code.meaning text.now) }
    ensures within { result ≤ length text.now }
{
    text.iter().filter(|byte| !is_mark(signs, **byte)).count()
}

// Copies a text without its marks to the front of `out`. Answers how many bytes it has.
pub fn copy_without_marks<C: Code>(signs: &Signs<C>, text: &[u8], out: &mut [u8]) -> usize
    requires fits { length (without_marks C.Code.meaning text.now) ≤ length out.old }
    ensures len { result ≡ length (without_marks C.Code.meaning text.now) }
    ensures copied { take result out.new ≡ without_marks C.Code.meaning text.now }
    ensures past { drop result out.new ≡ drop result out.old }
    ensures out_len { length out.new ≡ length out.old }
{
    let mut len = 0;
    for byte in text {
        if !is_mark(signs, *byte) {
            out[len] = *byte;
            len += 1;
        }
    }
    len
}
