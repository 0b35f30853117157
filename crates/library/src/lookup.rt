// Finding a program by its name.
ghost use Rattle.std.specs.Prelude.{◌≡◌, ℕ, Some};
ghost use Rattle.library.specs.Meaning.{place, name_at};

use crate::iterators::each_program;
use crate::reader::Reader;

// The place of the program of that name, which is the only one.
pub fn find_program<R: Reader>(library: &R, name: &[u8]) -> Option<usize>
    ensures place { result ≡ place name.now (R.Reader.meaning library.now).programs }
    ensures found { (k : ℕ) → result ≡ Some k → name_at (R.Reader.meaning library.now).programs k ≡ Some name.now }
    ensures only { (k : ℕ) → name_at (R.Reader.meaning library.now).programs k ≡ Some name.now → result ≡ Some k }
{
    each_program(library).position(|program| program.name == name)
}
