// What a shelf holds.
ghost use Rattle.std.specs.Prelude.{◌≡◌, ◌≤◌, vec_len, vec_capacity};
ghost use Rattle.library.specs.Meaning.{NamesFit, NamesDistinct};
ghost use Rattle.shelf.specs.Decoding.{string_count, sizes, decoded};

use crate::rows::{ProgramRow, StringRow};

// The most that a shelf holds.
pub(crate) const PROGRAMS: usize = 32;

pub(crate) const STRINGS: usize = 128;

pub(crate) const BYTES: usize = 8192;

#[derive(Drop)]
pub struct Shelf {
    pub(crate) programs: Vec<ProgramRow>,
    pub(crate) strings: Vec<StringRow>,
    // the bytes of names and bodies, in the order of the rows, without gaps
    pub(crate) bytes: Vec<u8>,
    // there is memory for the most that it holds, and no more
    ghost programs_reserved: { vec_capacity programs ≡ 32 },
    ghost strings_reserved: { vec_capacity strings ≡ 128 },
    ghost bytes_reserved: { vec_capacity bytes ≡ 8192 },
    // it holds no more
    ghost programs_bounded: { vec_len programs ≤ 32 },
    ghost strings_bounded: { vec_len strings ≤ 128 },
    ghost bytes_bounded: { vec_len bytes ≤ 8192 },
    // every string belongs to a program, and every byte to a row
    ghost counted: { string_count programs.items ≡ vec_len strings },
    ghost filled: { sizes programs.items strings.items ≡ vec_len bytes },
    // the laws of a library
    ghost fit: { NamesFit (decoded programs.items strings.items bytes.items) },
    ghost distinct: { NamesDistinct (decoded programs.items strings.items bytes.items) },
}
