// The space left in a library.

#[derive(Clone, Copy, PartialEq, Eq, Debug)]
pub struct Space {
    pub programs: usize,
    pub strings: usize,
    pub bytes: usize,
}

impl Space {
    // No space left.
    pub const NONE: Space = Space {
        programs: 0,
        strings: 0,
        bytes: 0,
    };
}
