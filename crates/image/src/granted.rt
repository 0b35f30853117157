// An image whose contents have passed the questions.
ghost use Rattle.std.specs.Prelude.{◌≡◌, length};
ghost use Rattle.library.specs.Meaning.{NamesFit, NamesDistinct};
ghost use Rattle.image.specs.Contents.{entries_of_rows, text_sizes, programs_of_rows};

use crate::contents::Contents;

// Its contents, in the bytes of the host: names and bodies of the entries fill the texts exactly.
#[derive(Clone, Copy)]
pub struct Image<'a> {
    pub(crate) contents: Contents<'a>,
    ghost filled: { text_sizes (entries_of_rows contents.entries.now) ≡ length contents.texts.now },
    ghost fit: { NamesFit (programs_of_rows contents.entries.now contents.texts.now) },
    ghost distinct: { NamesDistinct (programs_of_rows contents.entries.now contents.texts.now) },
}
