// A shelf as a library that is read.
ghost use Rattle.std.specs.Prelude.{◌≡◌};
ghost use Rattle.std.specs.Option.{option_map};
ghost use Rattle.std.specs.List.{slice_get};
ghost use Rattle.library.specs.Views.{string_viewed};
ghost use Rattle.shelf.specs.Decoding.{strings_in};
ghost use Rattle.shelf.specs.Places.{program_viewed};
ghost use Rattle.shelf.specs.Shelved.{meaning_of, programs_of};

use crate::places::{Place, text_size};
use crate::shelf::{BYTES, PROGRAMS, STRINGS, Shelf};
use crate::views::ProgramView;
use library::{Reader, Space, StringView};

impl Shelf {
    // A program on the shelf.
    fn view(&self, program: usize) -> Option<ProgramView<'_>>
        ensures { option_map program_viewed result ≡ slice_get (programs_of self.now) program }
    {
        let row = self.programs.get(program)?;
        let Place { string, byte } = self.place(program);
        let (name, texts) = self.bytes[byte..].split_at(row.name);
        Some(ProgramView {
            name,
            rows: &self.strings[string..string + row.strings],
            texts,
        })
    }
}

impl<'a> ProgramView<'a> {
    // A string of the program.
    fn string(&self, string: usize) -> Option<StringView<'a>>
        ensures { option_map string_viewed result ≡ slice_get (strings_in self.now.rows.now self.now.texts.now) string }
    {
        let row = self.rows.get(string)?;
        let start = text_size(&self.rows[..string]);
        let (name, rest) = self.texts[start..].split_at(row.name);
        Some(StringView {
            name,
            body: &rest[..row.body],
        })
    }
}

impl Reader for Shelf {
    ghost meaning = { meaning_of };

    ghost lawful = { λ shelf. record { fit = shelf.fit; distinct = shelf.distinct } };

    fn programs(&self) -> usize {
        self.programs.len()
    }

    fn name(&self, program: usize) -> Option<&[u8]> {
        self.view(program).map(|view| view.name)
    }

    fn strings(&self, program: usize) -> Option<usize> {
        self.view(program).map(|view| view.rows.len())
    }

    fn string(&self, program: usize, string: usize) -> Option<StringView<'_>> {
        self.view(program)?.string(string)
    }

    fn space(&self) -> Space {
        Space {
            programs: PROGRAMS - self.programs.len(),
            strings: STRINGS - self.strings.len(),
            bytes: BYTES - self.bytes.len(),
        }
    }

    fn is_locked(&self) -> bool {
        false
    }
}
