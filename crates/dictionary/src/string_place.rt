// Where a string of the dictionary lies.
use crate::rows::Extent;

// Which row it is, where the row's bytes begin, how long its name is, and its body behind that.
#[derive(Clone, Copy)]
pub struct StringPlace {
    pub(crate) index: usize,
    pub(crate) start: usize,
    pub(crate) name: usize,
    pub extent: Extent,
}
