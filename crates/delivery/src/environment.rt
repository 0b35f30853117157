// What values are taken from, beside the parameters of their calls.
ghost use Rattle.std.specs.Prelude.{◌≤◌, length};

use dictionary::Dictionary;
use library::Reader;

#[derive(Drop)]
pub struct Environment<'a, R: Reader> {
    pub dictionary: &'a Dictionary,
    // where the dictionary's bytes lie
    pub store: &'a [u8],
    pub library: &'a R,
    ghost whole: { dictionary.now.used ≤ length store.now },
}
