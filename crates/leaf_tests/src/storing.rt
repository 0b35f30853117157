// What is done to a dictionary and its store, each after the question whether it fits.
ghost use Rattle.std.specs.Prelude.{◌≡◌, ◌≤◌, true, length, vec_len, vec_items, MatchBool};
ghost use Rattle.machine.specs.Texts.{Code as AnyCode};
ghost use Rattle.machine.specs.Dictionary.{Meaning, body_of, string, built_in, new_string, define, erase};
ghost use Rattle.dictionary.specs.Meant.{dictionary_in};
ghost use Rattle.dictionary.specs.Needing.{Takes};

use crate::stored::Stored;
use code::Code;
use dictionary::{Dictionary, Needs};
use machine::BuiltIn;
use signs::read_signs;
use std::alloc::{AllocError, Global};

impl<C: Code + Drop> Stored<C> {
    pub(crate) fn new(
        heap: Global,
        code: C,
        names: usize,
        bytes: usize,
    ) -> Result<Stored<C>, AllocError> {
        Ok(Stored {
            signs: read_signs(code),
            dictionary: Dictionary::new(heap, names)?,
            store: vec![in heap; 0; bytes]?,
            names,
        })
    }

    pub(crate) fn names(&self) -> usize {
        self.dictionary.names()
    }

    pub(crate) fn bytes(&self) -> usize {
        self.dictionary.bytes()
    }

    // What there would be if the name meant something with that body.
    pub(crate) fn needs(&self, name: &[u8], body: usize) -> Needs
        ensures { (code : AnyCode) (m : Meaning) → length (body_of m) ≡ body → Takes result (define code name.now m (dictionary_in self.now.dictionary (vec_items self.now.store))) }
    {
        self.dictionary
            .after_define(self.store.as_slice(), name, body)
    }

    pub(crate) fn fits(&self, needs: Needs) -> bool
        ensures { result ≡ true → (needs.names ≤ self.now.names) × (needs.bytes ≤ vec_len self.now.store) }
    {
        needs.names <= self.names && needs.bytes <= self.store.len()
    }

    // The name becomes a string, if it fits.
    pub(crate) fn define(&mut self, name: &[u8], body: &[u8]) -> bool
        ensures { MatchBool result (dictionary_in self.new.dictionary (vec_items self.new.store) ≡ define C.Code.meaning name.now (string (new_string body.now)) (dictionary_in self.old.dictionary (vec_items self.old.store))) (self.new ≡ self.old) }
    {
        if !self.fits(self.needs(name, body.len())) {
            return false;
        }
        let store = self.store.as_mut_slice();
        self.dictionary
            .define_string(&self.signs, store, name, body);
        true
    }

    // The name becomes a copied built-in, if it fits.
    pub(crate) fn copy_built_in(&mut self, name: &[u8], function: BuiltIn) -> bool
        ensures { MatchBool result (dictionary_in self.new.dictionary (vec_items self.new.store) ≡ define C.Code.meaning name.now (built_in function) (dictionary_in self.old.dictionary (vec_items self.old.store))) (self.new ≡ self.old) }
    {
        if !self.fits(self.needs(name, 0)) {
            return false;
        }
        let store = self.store.as_mut_slice();
        self.dictionary
            .define_built_in(&self.signs, store, name, function);
        true
    }

    pub(crate) fn erase(&mut self, name: &[u8])
        ensures { dictionary_in self.new.dictionary (vec_items self.new.store) ≡ erase C.Code.meaning name.now (dictionary_in self.old.dictionary (vec_items self.old.store)) }
    {
        let store = self.store.as_mut_slice();
        self.dictionary.erase(&self.signs, store, name);
    }
}
