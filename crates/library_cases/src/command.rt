// What the lines of a script ask for.
use crate::strings::Strings;

// What is asked of a library, whatever its kind. Names are as they were read: of any length.
#[derive(Drop)]
pub enum Task {
    Put(Vec<u8>, Strings),
    Delete(Vec<u8>),
    Find(Vec<u8>),
    Show,
}

#[derive(Drop)]
pub enum Command {
    // the library is an empty shelf
    Shelf,
    // from now on it is locked
    Lock,
    Ask(Task),
}
