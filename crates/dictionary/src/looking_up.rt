// What a name means in the dictionary.
ghost use Rattle.std.specs.Prelude.{◌≡◌, ◌≤◌, length, IfSome};
ghost use Rattle.std.specs.Option.{option_map};
ghost use Rattle.machine.specs.Dictionary.{look_up};
ghost use Rattle.dictionary.specs.Meant.{dictionary_in};
ghost use Rattle.dictionary.specs.LookingUp.{shown, FoundAt, meaning_of};

use crate::dictionary::Dictionary;
use crate::finding::Place;
use crate::meaning::Meaning;
use crate::originals::original;
use crate::rows::RowMeaning;
use crate::string_place::StringPlace;
use code::Code;
use signs::Signs;

impl Place {
    // What the row means.
    fn meaning(self) -> Meaning
        ensures { result ≡ meaning_of self }
    {
        match self.row.meaning {
            RowMeaning::String(extent) => Meaning::String(StringPlace {
                index: self.index,
                start: self.start,
                name: self.row.name,
                extent,
            }),
            RowMeaning::BuiltIn(function) => Meaning::BuiltIn(function),
        }
    }
}

impl Dictionary {
    // What a name means: a string or a copied built-in, or else the built-in of that name, if it stands.
    pub fn look_up<C: Code>(&self, signs: &Signs<C>, store: &[u8], name: &[u8]) -> Option<Meaning>
        requires { self.now.used ≤ length store.now }
        ensures meaning { option_map (shown store.now) result ≡ look_up C.Code.meaning (dictionary_in self.now store.now) name.now }
        ensures place { IfSome result (FoundAt self.now store.now name.now) }
    {
        match self.find(store, name) {
            Some(place) => Some(place.meaning()),
            None => original(&self.originals, signs, name).map(Meaning::BuiltIn),
        }
    }
}
