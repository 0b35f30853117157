// Strings and programs as text.
ghost use Rattle.std.specs.Prelude.{Some};
ghost use Rattle.std.specs.List.{flat_map};
ghost use Rattle.library.specs.Views.{string_viewed, program_viewed};
ghost use Rattle.listing.specs.Listing.{shown_string, shown_program};

use crate::glyphs::Glyphs;
use crate::text::ShownText;
use library::{ProgramView, Reader, Source, StringView, each_program, each_string};
use std::fmt;

// A string: its name, the length of its body, and its body.
#[derive(Clone, Copy)]
struct ShownString<'a, C> {
    code: &'a C,
    string: StringView<'a>,
}

impl<C: Glyphs> fmt::Display for ShownString<'_, C> {
    ghost output = { λ s. Some (shown_string C.Code.meaning C.Glyphs.glyph (string_viewed s.string)) };

    #[tactic(auto, unfolding(crate::specs::Listing::shown_string))]
    fn fmt<W: fmt::Write>(&self, f: &mut fmt::Formatter<W>) -> fmt::Result {
        let code = self.code;
        let StringView { name, body } = self.string;
        let length = body.len();
        let name = ShownText { code, text: name };
        let body = ShownText { code, text: body };
        writeln!(f, "  {name}, {length} bytes: {body}")
    }
}

// The strings of a program in order.
#[derive(Clone, Copy)]
struct ShownStrings<'a, C, S> {
    code: &'a C,
    strings: &'a S,
}

impl<C: Glyphs, S: Source> fmt::Display for ShownStrings<'_, C, S> {
    ghost output = { λ s. Some (flat_map (shown_string C.Code.meaning C.Glyphs.glyph) (S.Source.strings s.strings.now)) };

    fn fmt<W: fmt::Write>(&self, f: &mut fmt::Formatter<W>) -> fmt::Result {
        let code = self.code;
        for string in each_string(self.strings) {
            write!(f, "{}", ShownString { code, string })?;
        }
        Ok(())
    }
}

// A program: its name, how many strings it has, and these.
#[derive(Clone, Copy)]
struct ShownProgram<'a, C, R> {
    code: &'a C,
    program: ProgramView<'a, R>,
}

impl<C: Glyphs, R: Reader> fmt::Display for ShownProgram<'_, C, R> {
    ghost output = { λ s. Some (shown_program C.Code.meaning C.Glyphs.glyph (program_viewed R.Reader.meaning s.program)) };

    #[tactic(auto, unfolding(crate::specs::Listing::shown_program))]
    fn fmt<W: fmt::Write>(&self, f: &mut fmt::Formatter<W>) -> fmt::Result {
        let code = self.code;
        let name = ShownText {
            code,
            text: self.program.name,
        };
        let count = self.program.count();
        let strings = ShownStrings {
            code,
            strings: &self.program,
        };
        write!(f, "program {name}, strings: {count}\n{strings}")
    }
}

// The programs in order.
#[derive(Clone, Copy)]
pub struct ShownPrograms<'a, C, R> {
    pub code: &'a C,
    pub library: &'a R,
}

impl<C: Glyphs, R: Reader> fmt::Display for ShownPrograms<'_, C, R> {
    ghost output = { λ s. Some (flat_map (shown_program C.Code.meaning C.Glyphs.glyph) (R.Reader.meaning s.library.now).programs) };

    fn fmt<W: fmt::Write>(&self, f: &mut fmt::Formatter<W>) -> fmt::Result {
        let ShownPrograms { code, library } = *self;
        for program in each_program(library) {
            write!(f, "{}", ShownProgram { code, program })?;
        }
        Ok(())
    }
}
