// The members of a class that a string begins with, from its pointer on.
ghost use Rattle.std.specs.Prelude.{◌+◌, ◌≤◌};

use dictionary::StringPlace;

#[derive(Clone, Copy)]
pub(crate) struct Run {
    pub(crate) string: StringPlace,
    pub(crate) len: usize,
    ghost within: { string.extent.pointer + len ≤ string.extent.length },
}
