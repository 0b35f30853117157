// A name that becomes what is left of a string.
ghost use Rattle.std.specs.Prelude.{◌≡◌, ◌≤◌, length};
ghost use Rattle.machine.specs.Dictionary.{string, define};
ghost use Rattle.machine.specs.Strings.{copied_from};
ghost use Rattle.dictionary.specs.Meant.{dictionary_in};
ghost use Rattle.dictionary.specs.Finding.{RowAt};
ghost use Rattle.dictionary.specs.Editing.{Kept, Room};
ghost use Rattle.dictionary.specs.Strings.{place_of, string_in};

use crate::dictionary::Dictionary;
use crate::originals::remove_original;
use crate::rows::{Extent, RowMeaning};
use crate::string_place::StringPlace;
use code::Code;
use signs::Signs;

impl Dictionary {
    // The name becomes a string of what is behind the pointer of that one, which may be its own.
    pub fn define_copy<C: Code>(
        &mut self,
        signs: &Signs<C>,
        store: &mut [u8],
        name: &[u8],
        source: StringPlace,
    )
        requires whole { self.old.used ≤ length store.old }
        requires place { RowAt self.old (place_of source) }
        requires room { Room self.old store.old (define C.Code.meaning name.now (copied_from (string (string_in source store.old))) (dictionary_in self.old store.old)) }
        ensures meaning { dictionary_in self.new store.new ≡ define C.Code.meaning name.now (copied_from (string (string_in source store.old))) (dictionary_in self.old store.old) }
        ensures kept { Kept self.old self.new store.new }
    {
        remove_original(&mut self.originals, signs, name);
        let place = self.stand(store, name);
        let body = source.body_start();
        let start = body + source.extent.pointer;
        let end = body + source.extent.length;
        let extent = Extent {
            length: end - start,
            pointer: 0,
        };
        self.edit_within(store, place, start..end, RowMeaning::String(extent));
    }
}
