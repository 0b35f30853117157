// Classes of characters: a flag for each byte.
ghost use Rattle.std.specs.Prelude.{◌≡◌, ◌≤◌, length};
ghost use Rattle.std.specs.List.{prefix_len};
ghost use Rattle.code.specs.Meaning.{ranked};
ghost use Rattle.machine.specs.Classes.{in_class, begins_with, the_bytes, all_but};
ghost use Rattle.machine.specs.Dictionary.{class_of};

use crate::marks::is_mark;
use code::Code;
use signs::Signs;

// Is this byte a member, and no mark?
fn is_member<C: Code>(signs: &Signs<C>, members: &[bool; 256], byte: u8) -> bool
    ensures { result ≡ in_class C.Code.meaning members.now byte }
{
    members[usize::from(byte)] && !is_mark(signs, byte)
}

// The length of the run of members that a text begins with.
pub fn class_run<C: Code>(signs: &Signs<C>, members: &[bool; 256], text: &[u8]) -> usize
    ensures run { result ≡ prefix_len (in_class C.Code.meaning members.now) text.now }
    ensures within { result ≤ length text.now }
{
    text.iter()
        .take_while(|byte| is_member(signs, members, **byte))
        .count()
}

// Does a text begin with a member?
pub fn begins_with_member<C: Code>(signs: &Signs<C>, members: &[bool; 256], text: &[u8]) -> bool
    ensures { result ≡ begins_with (in_class C.Code.meaning members.now) text.now }
{
    text.first()
        .is_some_and(|byte| is_member(signs, members, *byte))
}

// The class of a text's bytes.
pub fn class_of_bytes(text: &[u8]) -> [bool; 256]
    ensures { result ≡ class_of (the_bytes text.now) }
{
    let mut members = [false; 256];
    for byte in text {
        members[usize::from(*byte)] = true;
    }
    members
}

// Is this byte a character or the end of line?
fn is_ranked<C: Code>(signs: &Signs<C>, byte: u8) -> bool
    ensures { result ≡ ranked C.Code.meaning byte }
{
    signs.code.is_character(byte) || byte == signs.end_of_line
}

// The class of the characters and the end of line, but for those of a text.
pub fn class_of_others<C: Code>(signs: &Signs<C>, text: &[u8]) -> [bool; 256]
    ensures { result ≡ class_of (all_but C.Code.meaning text.now) }
{
    let mut members = class_of_bytes(text);
    for (byte, member) in members.iter_mut().enumerate() {
        *member = is_ranked(signs, byte as u8) && !*member;
    }
    members
}
