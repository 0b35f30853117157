// Texts that are read where they lie.
ghost use Rattle.std.specs.Prelude.{◌≡◌, take, drop};
ghost use Rattle.machine.specs.World.{parameter};
ghost use Rattle.machine.specs.Dictionary.{rest_of};
ghost use Rattle.dictionary.specs.Finding.{RowAt};
ghost use Rattle.dictionary.specs.Strings.{place_of, string_in};

use crate::sources::Sources;
use code::Code;
use dictionary::StringPlace;
use library::Reader;

// The first bytes of a text, as far as it has them.
pub(crate) fn front(text: &[u8], len: usize) -> &[u8]
    ensures { result.now ≡ take len text.now }
{
    let len = len.min(text.len());
    &text[..len]
}

// A text without its first bytes.
pub(crate) fn behind(text: &[u8], len: usize) -> &[u8]
    ensures { result.now ≡ drop len text.now }
{
    let len = len.min(text.len());
    &text[len..]
}

impl<'a, C: Code, R: Reader> Sources<'a, C, R> {
    // A parameter, or nothing where there are fewer.
    pub(crate) fn parameter(&self, n: usize) -> &'a [u8]
        ensures { result.now ≡ parameter n self.now.parameters.now }
    {
        self.parameters.get(n)
    }

    // What is left of a string.
    pub(crate) fn rest(&self, string: StringPlace) -> &'a [u8]
        requires { RowAt self.now.dictionary.now (place_of string) }
        ensures { result.now ≡ rest_of (string_in string self.now.store.now) }
    {
        self.dictionary.rest(self.store, string)
    }
}
