// Comparing texts by the ranks of their characters.
ghost use Rattle.std.specs.Prelude.{◌≡◌, length, if◌then◌else◌};
ghost use Rattle.machine.specs.Texts.{rank_in, lower_text};

use code::Code;
use signs::Signs;

// The rank of a byte, and 0 where it has none.
fn rank_in<C: Code>(signs: &Signs<C>, byte: u8) -> u8
    ensures { result ≡ rank_in C.Code.meaning byte }
{
    signs.code.rank(byte).unwrap_or(0)
}

// Is the first text lower? A text that ends first is.
pub fn is_lower<C: Code>(signs: &Signs<C>, one: &[u8], other: &[u8]) -> bool
    ensures { result ≡ lower_text C.Code.meaning one.now other.now }
{
    one.iter()
        .map(|byte| rank_in(signs, *byte))
        .cmp(other.iter().map(|byte| rank_in(signs, *byte)))
        .is_lt()
}

// The one text, or the other.
pub fn choose<'a>(first: bool, one: &'a [u8], other: &'a [u8]) -> &'a [u8]
    ensures text { result.now ≡ (if first then one.now else other.now) }
    ensures len { length result.now ≡ (if first then length one.now else length other.now) }
{
    if first { one } else { other }
}
