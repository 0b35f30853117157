// The world of a processor.
ghost use Rattle.std.specs.Prelude.{◌≤◌, length};

use dictionary::Dictionary;

#[derive(Drop)]
pub struct World<'a, K> {
    pub dictionary: &'a mut Dictionary,
    // where the dictionary's bytes lie
    pub store: &'a mut [u8],
    pub library: &'a mut K,
    // the text that is printed begins the print area, and is so long
    pub print: &'a mut [u8],
    pub printed: usize,
    // the name of the call that was refused begins its area, and is so long
    pub called_name: &'a mut [u8],
    pub called: usize,
    // for a text that is marked while its marks are counted
    pub scratch: &'a mut [u8],
    ghost whole: { dictionary.now.used ≤ length store.now },
    ghost printed_within: { printed ≤ length print.now },
    ghost called_within: { called ≤ length called_name.now },
}
