// A string of the dictionary, and what is done to it.
ghost use Rattle.std.specs.Prelude.{◌≡◌, ◌+◌, ◌^◌, ◌<◌, ◌≤◌, ℕ, List, length};
ghost use Rattle.machine.specs.Texts.{Text};
ghost use Rattle.machine.specs.Dictionary.{rest_of, change};
ghost use Rattle.machine.specs.Strings.{appended};
ghost use Rattle.dictionary.specs.Meant.{dictionary_in};
ghost use Rattle.dictionary.specs.Finding.{RowAt, FirstNamed};
ghost use Rattle.dictionary.specs.Editing.{Kept};
ghost use Rattle.dictionary.specs.Strings.{place_of, string_in};

use crate::dictionary::Dictionary;
use crate::finding::Place;
use crate::rows::{Extent, Row, RowMeaning};
use crate::string_place::StringPlace;

impl StringPlace {
    // Where its body begins.
    pub(crate) fn body_start(&self) -> usize
        requires { self.now.start + self.now.name < 2 ^ 64 }
        ensures { result ≡ self.now.start + self.now.name }
    {
        self.start + self.name
    }

    pub(crate) fn place(&self) -> Place
        ensures { result ≡ place_of self.now }
    {
        Place {
            index: self.index,
            start: self.start,
            row: Row {
                name: self.name,
                meaning: RowMeaning::String(self.extent),
            },
        }
    }

    fn body<'a>(&self, store: &'a [u8]) -> &'a [u8]
        requires { self.now.start + self.now.name + self.now.extent.length ≤ length store.now }
        ensures { result.now ≡ (string_in self.now store.now).body }
    {
        let start = self.body_start();
        let end = start + self.extent.length;
        &store[start..end]
    }

    fn rest<'a>(&self, store: &'a [u8]) -> &'a [u8]
        requires { self.now.start + self.now.name + self.now.extent.length ≤ length store.now }
        ensures { result.now ≡ rest_of (string_in self.now store.now) }
    {
        let pointer = self.extent.pointer;
        &self.body(store)[pointer..]
    }
}

impl Dictionary {
    // The whole body of a string.
    pub fn body<'a>(&self, store: &'a [u8], string: StringPlace) -> &'a [u8]
        requires whole { self.now.used ≤ length store.now }
        requires place { RowAt self.now (place_of string) }
        ensures { result.now ≡ (string_in string store.now).body }
    {
        string.body(store)
    }

    // The body of a string from its pointer on.
    pub fn rest<'a>(&self, store: &'a [u8], string: StringPlace) -> &'a [u8]
        requires whole { self.now.used ≤ length store.now }
        requires place { RowAt self.now (place_of string) }
        ensures { result.now ≡ rest_of (string_in string store.now) }
    {
        string.rest(store)
    }

    // More bytes behind a string, and its pointer at the new end.
    pub fn append(&mut self, store: &mut [u8], string: StringPlace, more: &[u8])
        requires whole { self.old.used ≤ length store.old }
        requires place { RowAt self.old (place_of string) }
        requires fits { self.old.used + length more.now ≤ length store.old }
        ensures meaning { (name : Text) → FirstNamed self.old store.old name string.index → dictionary_in self.new store.new ≡ change name (appended more.now (string_in string store.old)) (dictionary_in self.old store.old) }
        ensures kept { Kept self.old self.new store.new }
    {
        let length = string.extent.length;
        let longer = length + more.len();
        let extent = Extent {
            length: longer,
            pointer: longer,
        };
        self.edit(
            store,
            string.place(),
            length..length,
            more,
            RowMeaning::String(extent),
        );
    }

    // The pointer of a string moves.
    pub fn set_pointer(&mut self, string: StringPlace, pointer: usize)
        requires place { RowAt self.old (place_of string) }
        requires within { pointer ≤ string.extent.length }
        ensures meaning { (store : List ℕ) (name : Text) → self.old.used ≤ length store → FirstNamed self.old store name string.index → dictionary_in self.new store ≡ change name (record { body = (string_in string store).body; pointer = pointer }) (dictionary_in self.old store) }
        ensures kept { (self.new.most_rows ≡ self.old.most_rows) × (self.new.used ≡ self.old.used) }
    {
        let extent = Extent {
            length: string.extent.length,
            pointer,
        };
        self.rows[string.index] = Row {
            name: string.name,
            meaning: RowMeaning::String(extent),
        };
    }
}
