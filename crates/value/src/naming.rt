// The names of a program's strings, with commas between.
ghost use Rattle.std.specs.Prelude.{◌≡◌, ◌+◌, ◌≤◌, ◌++◌, ℕ, [], length, take, slice_index_or};
ghost use Rattle.machine.specs.Libraries.{with_commas};
ghost use Rattle.value.specs.Texts.{capped, names_of, joined_name};

use crate::putting::put;
use code::Code;
use library::Reader;
use signs::Signs;

fn count<R: Reader>(library: &R, program: usize) -> usize
    ensures { result ≡ length (names_of (R.Reader.meaning library.now) program) }
{
    library.strings(program).unwrap_or(0)
}

fn name<R: Reader>(library: &R, program: usize, string: usize) -> &[u8]
    ensures { result.now ≡ slice_index_or (names_of (R.Reader.meaning library.now) program) string [] }
{
    match library.string(program, string) {
        Some(view) => view.name,
        None => &[],
    }
}

fn joined_length(place: usize, name: &[u8]) -> usize
    ensures { (comma : ℕ) → result ≡ length (joined_name comma place name.now) }
{
    if place == 0 {
        name.len()
    } else {
        name.len() + 1
    }
}

fn put_joined<C: Code>(
    signs: &Signs<C>,
    place: usize,
    name: &[u8],
    out: &mut [u8],
    at: usize,
) -> usize
    requires { at + length (joined_name (C.Code.meaning.named 44) place name.now) ≤ length out.old }
    ensures end { result ≡ at + length (joined_name (C.Code.meaning.named 44) place name.now) }
    ensures written { take result out.new ≡ take at out.old ++ joined_name (C.Code.meaning.named 44) place name.now }
    ensures len { length out.new ≡ length out.old }
{
    if place == 0 {
        put(out, at, name)
    } else {
        let behind = put(out, at, &[signs.comma]);
        put(out, behind, name)
    }
}

pub(crate) fn names_length<R: Reader>(library: &R, program: usize) -> usize
    ensures { (comma : ℕ) → result ≡ capped (length (with_commas comma (names_of (R.Reader.meaning library.now) program))) }
{
    let mut len: usize = 0;
    for string in 0..count(library, program) {
        len = len.saturating_add(joined_length(string, name(library, program, string)));
    }
    len
}

pub(crate) fn write_names<C: Code, R: Reader>(
    signs: &Signs<C>,
    library: &R,
    program: usize,
    out: &mut [u8],
)
    requires { length out.old ≡ length (with_commas (C.Code.meaning.named 44) (names_of (R.Reader.meaning library.now) program)) }
    ensures { out.new ≡ with_commas (C.Code.meaning.named 44) (names_of (R.Reader.meaning library.now) program) }
{
    let mut at = 0;
    for string in 0..count(library, program) {
        at = put_joined(signs, string, name(library, program, string), out, at);
    }
}
