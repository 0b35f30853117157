// What is done to strings that are there, each after the question whether it fits.
ghost use Rattle.std.specs.Prelude.{IfSome};
ghost use Rattle.dictionary.specs.Finding.{RowAt};
ghost use Rattle.dictionary.specs.Strings.{place_of};

use crate::stored::Stored;
use code::Code;
use dictionary::{Meaning, StringPlace};
use machine::BuiltIn;

impl<C: Code + Drop> Stored<C> {
    // Where the string of that name lies.
    pub(crate) fn string(&self, name: &[u8]) -> Option<StringPlace>
        ensures place { IfSome result (λ s. RowAt self.now.dictionary (place_of s)) }
    {
        match self
            .dictionary
            .look_up(&self.signs, self.store.as_slice(), name)?
        {
            Meaning::String(place) => Some(place),
            Meaning::BuiltIn(_) => None,
        }
    }

    pub(crate) fn built_in(&self, name: &[u8]) -> Option<BuiltIn> {
        match self
            .dictionary
            .look_up(&self.signs, self.store.as_slice(), name)?
        {
            Meaning::String(_) => None,
            Meaning::BuiltIn(function) => Some(function),
        }
    }

    pub(crate) fn body(&self, name: &[u8]) -> Option<&[u8]> {
        let string = self.string(name)?;
        Some(self.dictionary.body(self.store.as_slice(), string))
    }

    pub(crate) fn rest(&self, name: &[u8]) -> Option<&[u8]> {
        let string = self.string(name)?;
        Some(self.dictionary.rest(self.store.as_slice(), string))
    }

    pub(crate) fn body_is(&self, name: &[u8], text: &[u8]) -> bool {
        self.body(name).is_some_and(|body| body == text)
    }

    pub(crate) fn rest_is(&self, name: &[u8], text: &[u8]) -> bool {
        self.rest(name).is_some_and(|rest| rest == text)
    }

    pub(crate) fn append(&mut self, name: &[u8], more: &[u8]) -> bool {
        let Some(string) = self.string(name) else {
            return false;
        };
        if more.len() > self.store.len() - self.dictionary.bytes() {
            return false;
        }
        self.dictionary
            .append(self.store.as_mut_slice(), string, more);
        true
    }

    pub(crate) fn copy(&mut self, name: &[u8], source: &[u8]) -> bool {
        let Some(string) = self.string(source) else {
            return false;
        };
        let rest = self.dictionary.rest(self.store.as_slice(), string).len();
        if !self.fits(self.needs(name, rest)) {
            return false;
        }
        let store = self.store.as_mut_slice();
        self.dictionary
            .define_copy(&self.signs, store, name, string);
        true
    }

    // How many matches there were.
    pub(crate) fn mark(&mut self, name: &[u8], sought: &[u8], mark: u8) -> Option<usize> {
        let mut string = self.string(name)?;
        let store = self.store.as_mut_slice();
        Some(self.dictionary.mark(store, &mut string, sought, mark))
    }

    pub(crate) fn set_pointer(&mut self, name: &[u8], pointer: usize) -> bool {
        match self.string(name) {
            Some(string) if pointer <= string.extent.length => {
                self.dictionary.set_pointer(string, pointer);
                true
            }
            _ => false,
        }
    }
}
