// Parameters of a call that stands in a text.
ghost use Rattle.std.specs.Prelude.{◌≡◌, ◌<◌, length, false, IfSome};
ghost use Rattle.machine.specs.Selection.{zero_level};

use code::Code;
use signs::Signs;

// The place of the first `;` at level zero. `<` and `>` count levels, and `@` protects the byte after it.
pub fn zero_level<C: Code>(signs: &Signs<C>, text: &[u8]) -> Option<usize>
    ensures place { result ≡ zero_level C.Code.meaning false 0 text.now }
    ensures within { IfSome result (λ k. k < length text.now) }
{
    let mut protected = false;
    let mut level: usize = 0;
    for (place, byte) in text.iter().enumerate() {
        if protected {
            protected = false;
        } else if *byte == signs.at {
            protected = true;
        } else if *byte == signs.less {
            level += 1;
        } else if *byte == signs.greater {
            level = level.saturating_sub(1);
        } else if *byte == signs.semicolon && level == 0 {
            return Some(place);
        }
    }
    None
}
