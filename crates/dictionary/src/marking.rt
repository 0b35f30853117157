// Marks in a string.
ghost use Rattle.std.specs.Prelude.{◌≡◌, ◌-◌, ◌≤◌, length, take, slice_range};
ghost use Rattle.std.specs.List.{splice};
ghost use Rattle.machine.specs.Texts.{Text};
ghost use Rattle.machine.specs.Dictionary.{rest_of, change};
ghost use Rattle.machine.specs.Strings.{matches, with_mark, with_rest};
ghost use Rattle.dictionary.specs.Meant.{dictionary_in};
ghost use Rattle.dictionary.specs.Finding.{RowAt, FirstNamed};
ghost use Rattle.dictionary.specs.Editing.{Kept};
ghost use Rattle.dictionary.specs.Strings.{place_of, string_in};

use crate::dictionary::Dictionary;
use crate::rows::{Extent, RowMeaning};
use crate::string_place::StringPlace;
use area::{Marked, mark_matches};
use std::ops::Range;

// Marks the matches in a part of the store; what is left of the part lies at its front.
fn mark_part(store: &mut [u8], part: Range<usize>, sought: &[u8], mark: u8) -> Marked
    requires { (part.start ≤ part.end) × (part.end ≤ length store.old) }
    ensures text { take result.len (slice_range store.new part.start part.end) ≡ with_mark sought.now mark (slice_range store.old part.start part.end) }
    ensures matches { result.matches ≡ matches sought.now (slice_range store.old part.start part.end) }
    ensures within { result.len ≤ part.end - part.start }
    ensures others { store.new ≡ splice store.old part.start part.end (slice_range store.new part.start part.end) }
{
    let Range { start, end } = part;
    mark_matches(&mut store[start..end], sought, mark)
}

impl Dictionary {
    // Each match of a text behind the pointer of a string becomes one mark. The answer says how many there are.
    pub fn mark(
        &mut self,
        store: &mut [u8],
        string: &mut StringPlace,
        sought: &[u8],
        mark: u8,
    ) -> usize
        requires whole { self.old.used ≤ length store.old }
        requires place { RowAt self.old (place_of string.old) }
        ensures matches { result ≡ matches sought.now (rest_of (string_in string.old store.old)) }
        ensures meaning { (name : Text) → FirstNamed self.old store.old name string.old.index → dictionary_in self.new store.new ≡ change name (with_rest (with_mark sought.now mark (rest_of (string_in string.old store.old))) (string_in string.old store.old)) (dictionary_in self.old store.old) }
        ensures place { RowAt self.new (place_of string.new) }
        ensures string { string_in string.new store.new ≡ with_rest (with_mark sought.now mark (rest_of (string_in string.old store.old))) (string_in string.old store.old) }
        ensures named { (name : Text) → FirstNamed self.old store.old name string.old.index → FirstNamed self.new store.new name string.new.index }
        ensures kept { Kept self.old self.new store.new }
    {
        let place = string.place();
        let pointer = string.extent.pointer;
        let length = string.extent.length;
        let body = string.body_start();
        let start = body + pointer;
        let end = body + length;
        let marked = mark_part(store, start..end, sought, mark);
        let shorter = pointer + marked.len;
        let extent = Extent {
            length: shorter,
            pointer,
        };
        self.edit(
            store,
            place,
            shorter..length,
            &[],
            RowMeaning::String(extent),
        );
        string.extent = extent;
        marked.matches
    }
}
