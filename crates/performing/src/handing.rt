// How strings are handed over to be stored.
ghost use Rattle.std.specs.Prelude.{◌≡◌};
ghost use Rattle.machine.specs.Dictionary.{look_up};
ghost use Rattle.machine.specs.Libraries.{whole_body, program_to_store};
ghost use Rattle.dictionary.specs.Meant.{dictionary_in};

use crate::strings_to_store::StringsToStore;
use code::Code;
use dictionary::Meaning;
use library::{Source, StringView};

impl<'a, C: Code> StringsToStore<'a, C> {
    // The whole body of a string; nothing of a name that means none.
    fn body(&self, name: &[u8]) -> &'a [u8]
        ensures { result.now ≡ whole_body (look_up C.Code.meaning (dictionary_in self.now.dictionary.now self.now.store.now) name.now) }
    {
        match self.dictionary.look_up(self.signs, self.store, name) {
            Some(Meaning::String(string)) => self.dictionary.body(self.store, string),
            _ => &[],
        }
    }
}

impl<'a, C: Code> Source for StringsToStore<'a, C> {
    ghost strings = { λ s. (program_to_store C.Code.meaning s.parameters.now (dictionary_in s.dictionary.now s.store.now)).strings };

    fn count(&self) -> usize {
        self.parameters.len().saturating_sub(1)
    }

    fn string(&self, string: usize) -> Option<StringView<'_>> {
        if string >= self.count() {
            return None;
        }
        let name = self.parameters.get(string + 1);
        let body = self.body(name);
        Some(StringView { name, body })
    }
}
