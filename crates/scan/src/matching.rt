// The `>` that matches a `<`.
ghost use Rattle.std.specs.Prelude.{◌≡◌, ◌<◌, false, length, IfSome};
ghost use Rattle.machine.specs.Scan.{match_of};

use code::Code;
use signs::Signs;

// How many bytes stand before the `>` that matches a `<` before the text; `@` protects the byte after it.
pub fn find_match<C: Code>(signs: &Signs<C>, text: &[u8]) -> Option<usize>
    ensures value { result ≡ match_of C.Code.meaning false 0 text.now }
    ensures within { IfSome result (λ k. k < length text.now) }
{
    let mut depth = 0usize;
    let mut protected = false;
    for (at, byte) in text.iter().enumerate() {
        if protected {
            protected = false;
        } else if *byte == signs.at {
            protected = true;
        } else if *byte == signs.less {
            depth += 1;
        } else if *byte == signs.greater {
            if depth == 0 {
                return Some(at);
            }
            depth -= 1;
        }
    }
    None
}
