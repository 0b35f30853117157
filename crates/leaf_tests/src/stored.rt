// A dictionary with the store that its bytes lie in, and with limits that are asked before anything is done.
ghost use Rattle.std.specs.Prelude.{◌≤◌, vec_len};

use code::Code;
use dictionary::Dictionary;
use signs::Signs;

#[derive(Drop)]
pub(crate) struct Stored<C: Code> {
    pub(crate) signs: Signs<C>,
    pub(crate) dictionary: Dictionary,
    pub(crate) store: Vec<u8>,
    // the most strings and copied built-ins
    pub(crate) names: usize,
    ghost whole: { dictionary.used ≤ vec_len store },
    ghost memory: { names ≤ dictionary.most_rows },
}
