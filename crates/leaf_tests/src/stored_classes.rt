// What is done to classes, each after the question whether it fits.
use crate::stored::Stored;
use code::Code;

impl<C: Code + Drop> Stored<C> {
    // Whether a byte is in the class of that name.
    pub(crate) fn member(&self, name: &[u8], byte: u8) -> Option<bool> {
        let members = self.dictionary.class(self.store.as_slice(), name)?;
        Some(members[usize::from(byte)])
    }

    pub(crate) fn define_class(&mut self, name: &[u8], members: &[bool; 256]) -> bool {
        let needs = self
            .dictionary
            .after_define_class(self.store.as_slice(), name);
        if needs.classes > 16 || needs.bytes > self.store.len() {
            return false;
        }
        self.dictionary
            .define_class(self.store.as_mut_slice(), name, members);
        true
    }

    pub(crate) fn erase_class(&mut self, name: &[u8]) {
        self.dictionary.erase_class(self.store.as_mut_slice(), name);
    }
}
