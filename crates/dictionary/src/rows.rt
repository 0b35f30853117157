// The rows of a dictionary. They have lengths only: the bytes of a row, its name and then its body, lie behind those of the
// row before.
ghost use Rattle.std.specs.Prelude.{◌≤◌};

use machine::BuiltIn;

// How long a body is, and how many of its bytes selection has passed.
#[derive(Clone, Copy)]
pub struct Extent {
    pub length: usize,
    pub pointer: usize,
    ghost within: { pointer ≤ length },
}

#[derive(Clone, Copy)]
pub enum RowMeaning {
    String(Extent),
    BuiltIn(BuiltIn),
}

#[derive(Clone, Copy)]
pub struct Row {
    // bytes of the name
    pub name: usize,
    pub meaning: RowMeaning,
}

#[derive(Clone, Copy)]
pub struct ClassRow {
    // bytes of the name
    pub name: usize,
    // for each byte, whether it is in the class
    pub members: [bool; 256],
}
