// A program of a library, where it lies.
ghost use Rattle.std.specs.Prelude.{◌≡◌, IfSome};
ghost use Rattle.std.specs.Option.{option_map};
ghost use Rattle.library.specs.Meaning.{program_at, strings_of};
ghost use Rattle.library.specs.Views.{program_viewed};

use crate::reader::Reader;
use crate::string_view::StringView;
use crate::strings::Source;

// The name that it was found with, and the library that has its strings, at that place.
#[derive(Clone, Copy)]
pub struct ProgramView<'a, R> {
    pub name: &'a [u8],
    pub library: &'a R,
    pub program: usize,
}

// The program at that place; `None` past the last one.
pub fn view_program<R: Reader>(library: &R, program: usize) -> Option<ProgramView<'_, R>>
    ensures shows { option_map (program_viewed R.Reader.meaning) result ≡ program_at (R.Reader.meaning library.now).programs program }
    ensures place { IfSome result (λ view. view.program ≡ program) }
{
    let name = library.name(program)?;
    Some(ProgramView {
        name,
        library,
        program,
    })
}

// Its strings are handed over to be stored where they lie; past the last program there are none.
impl<'a, R: Reader> Source for ProgramView<'a, R> {
    ghost strings = { λ view. strings_of (program_at (R.Reader.meaning view.library.now).programs view.program) };

    fn count(&self) -> usize {
        self.library.strings(self.program).unwrap_or(0)
    }

    fn string(&self, string: usize) -> Option<StringView<'_>> {
        self.library.string(self.program, string)
    }
}
