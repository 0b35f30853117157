// The rows of a shelf. They have lengths only: a program's bytes, its name and then each string's name and body, lie
// behind those of the program before.

#[derive(Clone, Copy, PartialEq, Eq, Debug)]
pub struct ProgramRow {
    // bytes of the name
    pub name: usize,
    // how many strings
    pub strings: usize,
}

#[derive(Clone, Copy, PartialEq, Eq, Debug)]
pub struct StringRow {
    // bytes of the name
    pub name: usize,
    // bytes of the body
    pub body: usize,
}
