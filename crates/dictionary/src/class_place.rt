// Where a class lies.

// Which class it is, and where the bytes of its name begin.
#[derive(Clone, Copy)]
pub(crate) struct ClassPlace {
    pub(crate) index: usize,
    pub(crate) start: usize,
}
