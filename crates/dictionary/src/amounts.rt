// What a dictionary takes.

#[derive(Clone, Copy, Debug, PartialEq, Eq)]
pub struct Needs {
    // strings and copied built-ins
    pub names: usize,
    // bytes of names and bodies
    pub bytes: usize,
}

#[derive(Clone, Copy, Debug, PartialEq, Eq)]
pub struct ClassNeeds {
    pub classes: usize,
    // bytes of names and bodies
    pub bytes: usize,
}
