// The contents of an image: its entries, and the names and bodies of their strings.
ghost use Rattle.std.specs.Prelude.{◌≡◌, ◌≤◌, map, length, MatchResult};
ghost use Rattle.std.specs.List.{list_all, slice_get, take_while};
ghost use Rattle.std.specs.Option.{option_map};
ghost use Rattle.std.specs.Str.{bytes_eq};
ghost use Rattle.std.specs.Result.{result_err};
ghost use Rattle.image.specs.Tests.{first_is, among};
ghost use Rattle.image.specs.Layout.{proper_bytes};
ghost use Rattle.image.specs.Contents.{first_entry, entries_of_rows, program_of, text_sizes, lines};
ghost use Rattle.image.specs.Questions.{well_named, goes_on as goes_on_in, adjacent, contents_refusal as refusal_of_contents, image_refusal};
ghost use Rattle.image.specs.Cutting.{IsCut};

use crate::entry::{Entry, EntryBytes};
use crate::line::Lines;
use code::Code;
use refusal::Refusal;

// The bytes of the names and bodies of all these entries.
pub fn text_size(entries: &[EntryBytes]) -> usize
    requires { length entries.now ≤ 128 }
    ensures { result ≡ text_sizes (entries_of_rows entries.now) }
{
    entries
        .iter()
        .map(|bytes| Entry { bytes }.text_size())
        .sum()
}

// The entry of a string, counted from 0, where the first entries are those of the program of that name.
pub fn string_entry<'a>(
    entries: &'a [EntryBytes],
    name: &[u8],
    string: usize,
) -> Option<&'a EntryBytes>
    ensures { option_map (λ x. x.now) result ≡ slice_get (take_while (λ r. bytes_eq (program_of (first_entry r)) name.now) entries.now) string }
{
    entries
        .iter()
        .take_while(|bytes| Entry { bytes: *bytes }.is_of(name))
        .nth(string)
}

// Is the first of these entries of the program of that name?
fn comes_next(entries: &[EntryBytes], name: &[u8]) -> bool
    ensures { result ≡ first_is name.now (map program_of (entries_of_rows entries.now)) }
{
    entries
        .first()
        .is_some_and(|bytes| Entry { bytes }.is_of(name))
}

// Is any of these entries of the program of that name?
fn comes_again(entries: &[EntryBytes], name: &[u8]) -> bool
    ensures { result ≡ among name.now (map program_of (entries_of_rows entries.now)) }
{
    entries.iter().any(|bytes| Entry { bytes }.is_of(name))
}

// Does the program of the first entry come next, or come no more?
fn goes_on(first: &EntryBytes, rest: &[EntryBytes]) -> bool
    ensures { result ≡ goes_on_in (program_of (first_entry first.now)) (map program_of (entries_of_rows rest.now)) }
{
    let name = Entry { bytes: first }.program();
    comes_next(rest, name) || !comes_again(rest, name)
}

// Are the strings of each program adjacent?
fn are_adjacent(entries: &[EntryBytes]) -> bool
    ensures { result ≡ adjacent (map program_of (entries_of_rows entries.now)) }
{
    let mut left = entries;
    while let Some((first, rest)) = left.split_first() {
        if !goes_on(first, rest) {
            return false;
        }
        left = rest;
    }
    true
}

// Are all program names 1 to 20 bytes long, and filled with zeros?
fn are_well_named(entries: &[EntryBytes]) -> bool
    ensures { result ≡ list_all well_named (entries_of_rows entries.now) }
{
    entries.iter().all(|bytes| Entry { bytes }.is_well_named())
}

// The entries, at most 128 of them, and the texts behind them.
#[derive(Clone, Copy)]
pub struct Contents<'a> {
    pub entries: &'a [EntryBytes],
    pub texts: &'a [u8],
    ghost few: { length entries.now ≤ 128 },
}

impl<'a> Contents<'a> {
    // Cuts an image behind its first two bytes, if it is of this code and has an entry for each of its strings.
    pub fn cut<C: Code>(code: &C, image: &'a [u8]) -> Result<Contents<'a>, Refusal>
        ensures { MatchResult result (λ contents. IsCut C.meaning image.now contents.entries.now contents.texts.now) (λ refusal. image_refusal C.meaning image.now ≡ Some refusal) }
    {
        let [number, count, rest @ ..] = image else {
            return Err(Refusal::WrongCode);
        };
        if *number != code.number() {
            return Err(Refusal::WrongCode);
        }
        let count = usize::from(*count);
        if count > 128 || 25 * count > rest.len() {
            return Err(Refusal::ContentsIncomplete);
        }
        let (entries, texts) = rest.split_at(25 * count);
        let (entries, _) = entries.as_chunks::<25>();
        Ok(Contents { entries, texts })
    }

    // Are all name bytes characters, and all body bytes characters, ends of lines or marks?
    fn are_proper<C: Code>(&self, code: &C) -> bool
        requires { text_sizes (entries_of_rows self.now.entries.now) ≡ length self.now.texts.now }
        ensures { result ≡ list_all (proper_bytes C.meaning) (lines (entries_of_rows self.now.entries.now) self.now.texts.now) }
    {
        let mut lines = Lines {
            entries: self.entries,
            texts: self.texts,
        };
        lines.all(|line| line.is_proper(code))
    }

    // Puts the questions to the contents, in their order.
    pub fn check<C: Code>(&self, code: &C) -> Result<(), Refusal>
        ensures { result_err result ≡ refusal_of_contents C.meaning (entries_of_rows self.now.entries.now) self.now.texts.now }
    {
        if !are_well_named(self.entries) {
            return Err(Refusal::ProgramNameMalformed);
        }
        if !are_adjacent(self.entries) {
            return Err(Refusal::ProgramSplit);
        }
        if text_size(self.entries) != self.texts.len() {
            return Err(Refusal::TextsMisfit);
        }
        if !self.are_proper(code) {
            return Err(Refusal::ForeignByte);
        }
        Ok(())
    }
}
