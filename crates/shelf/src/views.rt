// A program as it lies on a shelf.
ghost use Rattle.std.specs.Prelude.{◌≤◌, length};
ghost use Rattle.shelf.specs.Decoding.{text_sizes};

use crate::rows::StringRow;

// A program's name, the rows of its strings, and the bytes from its first string on.
#[derive(Clone, Copy)]
pub struct ProgramView<'a> {
    pub name: &'a [u8],
    pub rows: &'a [StringRow],
    pub texts: &'a [u8],
    ghost within: { text_sizes rows.now ≤ length texts.now },
}
