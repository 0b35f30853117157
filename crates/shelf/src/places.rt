// Where programs and strings begin.
ghost use Rattle.std.specs.Prelude.{◌≡◌, ◌^◌, ◌<◌, ◌≤◌, vec_len};
ghost use Rattle.shelf.specs.Decoding.{text_sizes};
ghost use Rattle.shelf.specs.Places.{first_string, first_byte};

use crate::rows::StringRow;
use crate::shelf::Shelf;

// A place among the strings, and among the bytes.
#[derive(Clone, Copy, PartialEq, Eq, Debug)]
pub struct Place {
    pub string: usize,
    pub byte: usize,
}

// The bytes of strings.
pub(crate) fn text_size(rows: &[StringRow]) -> usize
    requires { text_sizes rows.now < 2 ^ 64 }
    ensures { result ≡ text_sizes rows.now }
{
    rows.iter().map(|row| row.name + row.body).sum()
}

impl Shelf {
    // Where a program begins, or where the last one ends.
    pub(crate) fn place(&self, program: usize) -> Place
        requires { program ≤ vec_len self.now.programs }
        ensures string { result.string ≡ first_string program self.now.programs.items }
        ensures byte { result.byte ≡ first_byte program self.now.programs.items self.now.strings.items }
    {
        let before = &self.programs[..program];
        let string = before.iter().map(|row| row.strings).sum();
        let names: usize = before.iter().map(|row| row.name).sum();
        Place {
            string,
            byte: names + text_size(&self.strings[..string]),
        }
    }
}
