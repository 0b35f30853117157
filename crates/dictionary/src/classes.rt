// The classes of characters.
ghost use Rattle.std.specs.Prelude.{◌≡◌, ◌+◌, ◌<◌, ◌≤◌, None, length, vec_len, MatchOption};
ghost use Rattle.std.specs.Option.{option_map};
ghost use Rattle.machine.specs.Texts.{first_place};
ghost use Rattle.machine.specs.Dictionary.{in_classes, with_class, without_class, with_classes, bytes_in};
ghost use Rattle.dictionary.specs.Meant.{classes_in, dictionary_in};
ghost use Rattle.dictionary.specs.Finding.{class_named, ClassStanding};
ghost use Rattle.dictionary.specs.Editing.{Kept};

use crate::class_place::ClassPlace;
use crate::dictionary::Dictionary;
use crate::rows::ClassRow;
use area::{remove, splice};

impl Dictionary {
    // The first class of that name.
    pub(crate) fn find_class(&self, store: &[u8], name: &[u8]) -> Option<ClassPlace>
        requires { self.now.used ≤ length store.now }
        ensures { MatchOption result (first_place (class_named name.now) (classes_in self.now store.now) ≡ None) (ClassStanding self.now store.now name.now) }
    {
        let mut start = self.row_bytes;
        for (index, class) in self.classes.iter().enumerate() {
            let end = start + class.name;
            if &store[start..end] == name {
                return Some(ClassPlace { index, start });
            }
            start = end;
        }
        None
    }

    // For each byte, whether it is in the class of that name.
    pub fn class(&self, store: &[u8], name: &[u8]) -> Option<&[bool; 256]>
        requires { self.now.used ≤ length store.now }
        ensures { option_map (λ members. members.now) result ≡ in_classes name.now (classes_in self.now store.now) }
    {
        let place = self.find_class(store, name)?;
        Some(&self.classes[place.index].members)
    }

    // A class of that name has these members now; a new name comes last.
    pub fn define_class(&mut self, store: &mut [u8], name: &[u8], members: &[bool; 256])
        requires whole { self.old.used ≤ length store.old }
        requires few { length (with_class name.now members.now (classes_in self.old store.old)) ≤ 16 }
        requires fits { bytes_in (with_classes (with_class name.now members.now (classes_in self.old store.old)) (dictionary_in self.old store.old)) ≤ length store.old }
        ensures meaning { dictionary_in self.new store.new ≡ with_classes (with_class name.now members.now (classes_in self.old store.old)) (dictionary_in self.old store.old) }
        ensures kept { Kept self.old self.new store.new }
    {
        match self.find_class(store, name) {
            Some(place) => self.classes[place.index].members = *members,
            None => self.add_class(store, name, members),
        }
    }

    fn add_class(&mut self, store: &mut [u8], name: &[u8], members: &[bool; 256])
        requires whole { self.old.used ≤ length store.old }
        requires absent { first_place (class_named name.now) (classes_in self.old store.old) ≡ None }
        requires few { vec_len self.old.classes < 16 }
        requires fits { self.old.used + length name.now ≤ length store.old }
        ensures meaning { dictionary_in self.new store.new ≡ with_classes (with_class name.now members.now (classes_in self.old store.old)) (dictionary_in self.old store.old) }
        ensures kept { Kept self.old self.new store.new }
    {
        let used = self.used;
        self.used = splice(store, used, used..used, name);
        self.classes.push_reserved(ClassRow {
            name: name.len(),
            members: *members,
        });
    }

    // The class of that name goes, if there is one.
    pub fn erase_class(&mut self, store: &mut [u8], name: &[u8])
        requires { self.old.used ≤ length store.old }
        ensures meaning { dictionary_in self.new store.new ≡ with_classes (without_class name.now (classes_in self.old store.old)) (dictionary_in self.old store.old) }
        ensures kept { Kept self.old self.new store.new }
    {
        if let Some(place) = self.find_class(store, name) {
            let used = self.used;
            let end = place.start + name.len();
            self.used = remove(store, used, place.start..end);
            self.classes.remove(place.index);
        }
    }
}
