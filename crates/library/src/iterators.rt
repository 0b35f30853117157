// The strings of a source, and the programs of a library, one after another.
ghost use Rattle.std.specs.Prelude.{◌≡◌, length};

mod stepping;

use crate::reader::Reader;
use crate::strings::Source;
use std::ops::Range;
pub use stepping::{each_program, each_string};

// The strings at the places that are left.
#[derive(Drop)]
pub struct Strings<'a, S: Source> {
    source: &'a S,
    places: Range<usize>,
    ghost counted: { places.end ≡ length (S.Source.strings source.now) },
}

// The programs at the places that are left.
#[derive(Drop)]
pub struct Programs<'a, R: Reader> {
    library: &'a R,
    places: Range<usize>,
    ghost counted: { places.end ≡ length (R.Reader.meaning library.now).programs },
}
