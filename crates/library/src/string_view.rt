// A string of a program, where it lies.

#[derive(Clone, Copy, PartialEq, Eq, Debug)]
pub struct StringView<'a> {
    pub name: &'a [u8],
    pub body: &'a [u8],
}
