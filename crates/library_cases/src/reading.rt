// A command from the words of a line.
ghost use Rattle.std.specs.Prelude.{◌≡◌, IfOk, vec_items, decimal};
ghost use Rattle.std.specs.Option.{ok_or};
ghost use Rattle.std.specs.Str.{bytes_eq};
ghost use Rattle.library_cases.specs.Handed.{named, handed};
ghost use Rattle.library_cases.specs.Words.{texts, bytes_of};
ghost use Rattle.library_cases.specs.Reading.{Reads};
ghost use Rattle.library_cases.specs.Commands.{meant, verb_of, string_of, strings_in, put_in, by_verb, command_in};
ghost use Rattle.library_cases.specs.declared.read_error.ReadError.TheVariants.{BadLine};

use crate::command::{Command, Task};
use crate::read_error::ReadError;
use crate::strings::{Strings, Text};
use crate::words::{read_bytes, split_words};
use library::Source;
use std::alloc::{AllocError, Global};
use std::str::FromStr;

// The first word of a line.
#[derive(Clone, Copy, PartialEq, Eq, Debug)]
pub enum Verb {
    Shelf,
    Put,
    Delete,
    Lock,
    Find,
    Show,
}

impl FromStr for Verb {
    type Err = ReadError;

    ghost from_str_gives = { λ word r. r ≡ ok_or (verb_of word) BadLine };

    fn from_str(word: &str) -> Result<Verb, ReadError> {
        match word {
            "shelf" => Ok(Verb::Shelf),
            "put" => Ok(Verb::Put),
            "delete" => Ok(Verb::Delete),
            "lock" => Ok(Verb::Lock),
            "find" => Ok(Verb::Find),
            "lib" => Ok(Verb::Show),
            _ => Err(ReadError::BadLine),
        }
    }
}

// The string of this name and body.
fn read_text(heap: Global, name: &str, body: &str) -> Result<Text, ReadError>
    ensures { Reads named result (string_of (bytes_of name.now) (bytes_of body.now)) }
{
    Ok(Text {
        name: read_bytes(heap, name)?,
        body: read_bytes(heap, body)?,
    })
}

// The strings that the words are, two and two.
fn read_strings(heap: Global, words: &[&str]) -> Result<Strings, ReadError>
    ensures { Reads handed result (strings_in (texts words.now)) }
{
    let (pairs, []) = words.as_chunks::<2>() else {
        return Err(ReadError::BadLine);
    };
    let mut texts = Vec::new(heap);
    for [name, body] in pairs {
        texts.push(read_text(heap, name, body)?)?;
    }
    Ok(Strings { texts })
}

// Is the word this number in decimal?
fn is_number(heap: Global, word: &str, n: usize) -> Result<bool, AllocError>
    ensures { IfOk result (λ t. t ≡ bytes_eq (decimal n) word.now) }
{
    let expected = format!(in heap; "{n}")?;
    Ok(expected.as_str() == word)
}

// A program: its name, how many strings it has, and these.
fn read_put(heap: Global, words: &[&str]) -> Result<Command, ReadError>
    ensures { Reads meant result (put_in (texts words.now)) }
{
    let [name, count, rest @ ..] = words else {
        return Err(ReadError::BadLine);
    };
    let strings = read_strings(heap, rest)?;
    if !is_number(heap, count, strings.count())? {
        return Err(ReadError::BadLine);
    }
    let name = read_bytes(heap, name)?;
    Ok(Command::Ask(Task::Put(name, strings)))
}

fn read_command(heap: Global, verb: Verb, words: &[&str]) -> Result<Command, ReadError>
    ensures { Reads meant result (by_verb verb (texts words.now)) }
{
    match (verb, words) {
        (Verb::Shelf, []) => Ok(Command::Shelf),
        (Verb::Lock, []) => Ok(Command::Lock),
        (Verb::Show, []) => Ok(Command::Ask(Task::Show)),
        (Verb::Put, words) => read_put(heap, words),
        (Verb::Delete, [name]) => Ok(Command::Ask(Task::Delete(read_bytes(heap, name)?))),
        (Verb::Find, [name]) => Ok(Command::Ask(Task::Find(read_bytes(heap, name)?))),
        _ => Err(ReadError::BadLine),
    }
}

// What a line asks for.
pub fn parse(heap: Global, line: &str) -> Result<Command, ReadError>
    ensures { Reads meant result (command_in line.now) }
{
    let words = split_words(heap, line)?;
    match words.as_slice() {
        [verb, rest @ ..] => read_command(heap, verb.parse()?, rest),
        [] => Err(ReadError::BadLine),
    }
}
