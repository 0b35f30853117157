// Strings that are handed over to be stored.
ghost use Rattle.std.specs.Prelude.{◌≡◌, List, length, map};
ghost use Rattle.std.specs.Option.{option_map};
ghost use Rattle.std.specs.List.{slice_get};
ghost use Rattle.library.specs.Meaning.{NamedString};
ghost use Rattle.library.specs.Views.{string_viewed};

use crate::string_view::StringView;

// Where the strings of a program come from. Nothing is copied to hand them over.
pub trait Source {
    ghost strings: { Self → List NamedString };

    // How many there are.
    fn count(&self) -> usize
        ensures { result ≡ length (strings self.now) };

    // A string, counted from 0; `None` past the last one.
    fn string(&self, string: usize) -> Option<StringView<'_>>
        ensures { option_map string_viewed result ≡ slice_get (strings self.now) string };
}

// Strings that a host has in a slice.
#[derive(Clone, Copy)]
pub struct StringViews<'a> {
    pub views: &'a [StringView<'a>],
}

impl<'a> Source for StringViews<'a> {
    ghost strings = { λ source. map string_viewed source.views.now };

    fn count(&self) -> usize {
        self.views.len()
    }

    fn string(&self, string: usize) -> Option<StringView<'_>> {
        self.views.get(string).copied()
    }
}
