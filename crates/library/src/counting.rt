// How much a library has.
ghost use Rattle.std.specs.Prelude.{◌≡◌};
ghost use Rattle.library.specs.Meaning.{string_count};

use crate::iterators::each_program;
use crate::reader::Reader;
use crate::strings::Source;

// How many strings the programs have together. The sum may pass a `usize`.
pub fn count_strings<R: Reader>(library: &R) -> u128
    ensures { result ≡ string_count (R.Reader.meaning library.now).programs }
{
    each_program(library)
        .map(|program| program.count() as u128)
        .sum()
}
