// What a built-in does beside its value.

use dictionary::StringPlace;
use machine::BuiltIn;

// The parameters of the call are counted from 1.
#[derive(Clone, Copy)]
pub enum Effect {
    Nothing,
    // parameter 1 becomes the string 2
    DefineString,
    // parameter 2 goes behind the string 1
    Append(StringPlace),
    // parameter 1 becomes what is left of this string
    CopyString(StringPlace),
    // parameter 1 becomes this built-in
    CopyBuiltIn(BuiltIn),
    // each parameter is a name that goes
    EraseNames,
    // the pointer of the string that the parameter names (counted from 0) stands there now
    MovePointer {
        name: usize,
        string: StringPlace,
        pointer: usize,
    },
    // the parameters behind the first are marked in the string 1; are there mark numbers enough?
    Segment {
        string: StringPlace,
        numbered: bool,
    },
    // parameter 2 is marked for creation in the string 1
    MarkCreation(StringPlace),
    // parameter 1 becomes the class of the bytes of 2
    DefineClass,
    // parameter 1 becomes the class of the characters and the end of line, but those of 2
    DefineClassOfOthers,
    // each parameter is the name of a class that goes
    EraseClasses,
    // the strings behind parameter 1 are stored as a program of that name
    Store,
    // the program 1 goes
    Delete,
    // parameter 1 is printed
    Print,
    // parameter 1 becomes the right text
    Break,
}
