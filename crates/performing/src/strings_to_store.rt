// Strings that are to be stored, where they lie in the dictionary.
ghost use Rattle.std.specs.Prelude.{◌≤◌, length};

use code::Code;
use dictionary::Dictionary;
use scan::Parameters;
use signs::Signs;

#[derive(Drop)]
pub(crate) struct StringsToStore<'a, C: Code> {
    pub(crate) signs: &'a Signs<C>,
    pub(crate) dictionary: &'a Dictionary,
    // where the dictionary's bytes lie
    pub(crate) store: &'a [u8],
    // the name of a program, and those of its strings
    pub(crate) parameters: &'a Parameters<'a>,
    ghost whole: { dictionary.now.used ≤ length store.now },
}
