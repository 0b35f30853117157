// Names that are defined and erased.
ghost use Rattle.std.specs.Prelude.{◌≡◌, ◌≤◌, length};
ghost use Rattle.machine.specs.Dictionary.{string, built_in, new_string, define, erase};
ghost use Rattle.dictionary.specs.Meant.{dictionary_in};
ghost use Rattle.dictionary.specs.Editing.{Kept, Room};

use crate::dictionary::Dictionary;
use crate::originals::remove_original;
use crate::rows::{Extent, RowMeaning};
use code::Code;
use machine::BuiltIn;
use signs::Signs;

impl Dictionary {
    // The name becomes a string.
    pub fn define_string<C: Code>(
        &mut self,
        signs: &Signs<C>,
        store: &mut [u8],
        name: &[u8],
        body: &[u8],
    )
        requires whole { self.old.used ≤ length store.old }
        requires room { Room self.old store.old (define C.Code.meaning name.now (string (new_string body.now)) (dictionary_in self.old store.old)) }
        ensures meaning { dictionary_in self.new store.new ≡ define C.Code.meaning name.now (string (new_string body.now)) (dictionary_in self.old store.old) }
        ensures kept { Kept self.old self.new store.new }
    {
        remove_original(&mut self.originals, signs, name);
        let extent = Extent {
            length: body.len(),
            pointer: 0,
        };
        self.put(store, name, RowMeaning::String(extent), body);
    }

    // The name becomes a copied built-in.
    pub fn define_built_in<C: Code>(
        &mut self,
        signs: &Signs<C>,
        store: &mut [u8],
        name: &[u8],
        function: BuiltIn,
    )
        requires whole { self.old.used ≤ length store.old }
        requires room { Room self.old store.old (define C.Code.meaning name.now (built_in function) (dictionary_in self.old store.old)) }
        ensures meaning { dictionary_in self.new store.new ≡ define C.Code.meaning name.now (built_in function) (dictionary_in self.old store.old) }
        ensures kept { Kept self.old self.new store.new }
    {
        remove_original(&mut self.originals, signs, name);
        self.put(store, name, RowMeaning::BuiltIn(function), &[]);
    }

    // The name goes, whatever it means; an absent one is skipped.
    pub fn erase<C: Code>(&mut self, signs: &Signs<C>, store: &mut [u8], name: &[u8])
        requires { self.old.used ≤ length store.old }
        ensures meaning { dictionary_in self.new store.new ≡ erase C.Code.meaning name.now (dictionary_in self.old store.old) }
        ensures kept { Kept self.old self.new store.new }
    {
        remove_original(&mut self.originals, signs, name);
        self.remove_named(store, name);
    }
}
