// Passing characters of a text.
ghost use Rattle.std.specs.Prelude.{◌≡◌, ◌≤◌, length};
ghost use Rattle.machine.specs.Selection.{bytes_to_pass};

use crate::marks::is_mark;
use code::Code;
use signs::Signs;

// How many bytes it takes to pass so many characters; all of them where there are fewer. Marks are neither counted nor stop it.
pub fn bytes_to_pass<C: Code>(signs: &Signs<C>, count: usize, text: &[u8]) -> usize
    ensures bytes { result ≡ bytes_to_pass C.Code.meaning count text.now }
    ensures within { result ≤ length text.now }
{
    let mut left = count;
    for (place, byte) in text.iter().enumerate() {
        if left == 0 {
            return place;
        }
        if !is_mark(signs, *byte) {
            left -= 1;
        }
    }
    text.len()
}
