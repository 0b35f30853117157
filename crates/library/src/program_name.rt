// The name of a program as a type that owns its bytes.
ghost use Rattle.std.specs.Prelude.{◌≡◌, ◌≤◌, length};

mod bytes;

// The most bytes that a name has.
const LONGEST: usize = 20;

// 1 to 20 bytes; those past `len` are no part of the name.
#[derive(Clone, Copy)]
pub struct ProgramName {
    bytes: [u8; LONGEST],
    len: usize,
    ghost whole: { length bytes ≡ 20 },
    ghost least: { 1 ≤ len },
    ghost most: { len ≤ 20 },
}
