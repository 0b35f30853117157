// How the iterators are made, and how they step.
ghost use Rattle.std.specs.Prelude.{◌≡◌, length};
ghost use Rattle.std.specs.Iterator.{YieldsFirstBy, at_most};
ghost use Rattle.library.specs.Views.{string_viewed, program_viewed};
ghost use Rattle.library.specs.Iterators.{strings_left, programs_left};

use super::{Programs, Strings};
use crate::program_view::{ProgramView, view_program};
use crate::reader::Reader;
use crate::string_view::StringView;
use crate::strings::Source;

// The strings in their order.
pub fn each_string<S: Source>(source: &S) -> Strings<'_, S>
    ensures { strings_left result ≡ S.Source.strings source.now }
{
    Strings {
        source,
        places: 0..source.count(),
    }
}

impl<'a, S: Source> Iterator for Strings<'a, S> {
    type Item = StringView<'a>;

    ghost next_gives = { YieldsFirstBy string_viewed strings_left };

    ghost remaining = { λ s. at_most (length (strings_left s)) };

    fn next(&mut self) -> Option<StringView<'a>> {
        self.source.string(self.places.next()?)
    }
}

// The programs in their order.
pub fn each_program<R: Reader>(library: &R) -> Programs<'_, R>
    ensures { programs_left result ≡ (R.Reader.meaning library.now).programs }
{
    Programs {
        library,
        places: 0..library.programs(),
    }
}

impl<'a, R: Reader> Iterator for Programs<'a, R> {
    type Item = ProgramView<'a, R>;

    ghost next_gives = { YieldsFirstBy (program_viewed R.Reader.meaning) programs_left };

    ghost remaining = { λ p. at_most (length (programs_left p)) };

    fn next(&mut self) -> Option<ProgramView<'a, R>> {
        view_program(self.library, self.places.next()?)
    }
}
