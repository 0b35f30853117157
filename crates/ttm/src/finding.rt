// What a look finds.

#[derive(Clone, Copy, Debug, PartialEq, Eq)]
pub enum Finding<'a> {
    Absent,
    BuiltIn,
    // a string's bytes from its residual pointer on
    String(&'a [u8]),
}
