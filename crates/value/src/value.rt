// What a call comes to, named by where it lies.

use dictionary::StringPlace;

#[derive(Clone, Copy)]
pub enum Value {
    Nothing,
    // a parameter, counted from 0
    Parameter(usize),
    // the first bytes of a parameter
    Front {
        parameter: usize,
        len: usize,
    },
    // a parameter without its first bytes
    Behind {
        parameter: usize,
        len: usize,
    },
    // a parameter, its last byte first
    Reversed(usize),
    // a parameter in lower case
    Lowered(usize),
    Number(i64),
    // how many bytes a parameter has
    Length(usize),
    // the first bytes of what is left of a string, without marks
    Passed {
        string: StringPlace,
        len: usize,
    },
    // what is left of a string, with parameters and a created number in the place of its marks
    Filled {
        string: StringPlace,
        created: Option<usize>,
    },
    // the names of a program's strings, with commas between
    Names {
        program: usize,
    },
}
