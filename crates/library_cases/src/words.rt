// A line in words.
ghost use Rattle.std.specs.Prelude.{◌≡◌, IfOk, vec_items};
ghost use Rattle.library_cases.specs.Words.{words as words_of_line, texts, bytes_of};
ghost use Rattle.library_cases.specs.Reading.{Reads};

use crate::read_error::ReadError;
use hex_text::unhex;
use std::alloc::{AllocError, Global};

// What stands between the spaces of a line.
pub fn split_words<'a>(heap: Global, line: &'a str) -> Result<Vec<&'a str>, AllocError>
    ensures { IfOk result (λ v. texts v.items ≡ words_of_line line.now) }
{
    line.split(' ').collect(heap)
}

// The bytes that a word stands for.
pub fn read_bytes(heap: Global, word: &str) -> Result<Vec<u8>, ReadError>
    ensures { Reads vec_items result (bytes_of word.now) }
{
    match word {
        "-" => Ok(Vec::new(heap)),
        "" => Err(ReadError::BadLine),
        _ => unhex(heap, word.as_bytes())?.ok_or(ReadError::BadLine),
    }
}
