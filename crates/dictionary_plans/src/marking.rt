// The substrings of a call of SS or SC, and how they are marked in a text.
ghost use Rattle.std.specs.Prelude.{◌≡◌, ◌+◌, ◌*◌, ◌≤◌, suc, length};
ghost use Rattle.machine.specs.Texts.{highest_mark};
ghost use Rattle.machine.specs.Strings.{segment_from};
ghost use Rattle.dictionary_plans.specs.Substrings.{substrings};

use area::mark_matches;
use code::Code;
use scan::Parameters;
use selection::highest_mark;
use signs::Signs;

// The highest number of a mark, and the most substrings that a call uses.
pub(crate) const MOST_MARKS: u8 = 62;

// How many substrings are used.
pub(crate) fn count_substrings(parameters: &Parameters<'_>) -> u8
    ensures { result ≡ length (substrings parameters.now) }
{
    parameters
        .len()
        .saturating_sub(1)
        .min(usize::from(MOST_MARKS)) as u8
}

// The highest number of a mark in a body.
pub(crate) fn highest_in<C: Code>(signs: &Signs<C>, body: &[u8]) -> u8
    ensures highest { result ≡ highest_mark C.Code.meaning body.now }
    ensures within { result ≤ 62 }
{
    highest_mark(signs, body)
}

// Marks the substrings in a text, with the numbers behind that one. The answer says how many places are marked.
pub(crate) fn mark_substrings<C: Code>(
    signs: &Signs<C>,
    parameters: &Parameters<'_>,
    highest: u8,
    text: &mut [u8],
) -> usize
    requires numbers { highest + length (substrings parameters.now) ≤ 62 }
    requires small { length text.old ≤ 32768 }
    ensures places { result ≡ (segment_from C.Code.meaning (suc highest) (substrings parameters.now) 0 text.old).places }
    ensures within { result ≤ 62 * 32768 }
    ensures len { length text.new ≡ length text.old }
{
    let mut len = text.len();
    let mut places = 0;
    for n in 0..count_substrings(parameters) {
        let mark = signs.code.segment_mark(highest + n + 1).unwrap();
        let substring = parameters.get(usize::from(n) + 1);
        let marked = mark_matches(&mut text[..len], substring, mark);
        len = marked.len;
        places += marked.matches;
    }
    places
}
