// What values are taken from.
ghost use Rattle.std.specs.Prelude.{◌≤◌, length};

use code::Code;
use dictionary::Dictionary;
use library::Reader;
use scan::Parameters;
use signs::Signs;

#[derive(Drop)]
pub struct Sources<'a, C: Code, R: Reader> {
    pub signs: &'a Signs<C>,
    pub parameters: &'a Parameters<'a>,
    pub dictionary: &'a Dictionary,
    // where the dictionary's bytes lie
    pub store: &'a [u8],
    pub library: &'a R,
    ghost whole: { dictionary.now.used ≤ length store.now },
}
