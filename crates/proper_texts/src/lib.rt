// What the names and bodies of a library's programs may hold. A library may hold any bytes: they are asked when a name or a
// body is to leave it.

#![tactic(auto)]

ghost use Rattle.std.specs.Prelude.{◌≡◌};
ghost use Rattle.code.specs.Meaning.{body_byte};
ghost use Rattle.machine.specs.Texts.{proper_name, proper_body};

use code::Code;
use signs::Signs;

// Is a name all characters?
pub fn is_proper_name<C: Code>(signs: &Signs<C>, name: &[u8]) -> bool
    ensures { result ≡ proper_name C.Code.meaning name.now }
{
    name.iter().all(|byte| signs.code.is_character(*byte))
}

// Is it a character, an end of line or a mark?
fn is_body_byte<C: Code>(signs: &Signs<C>, byte: u8) -> bool
    ensures { result ≡ body_byte C.Code.meaning byte }
{
    signs.code.is_character(byte)
        || byte == signs.end_of_line
        || byte == signs.creation_mark
        || signs.code.mark_number(byte).is_some()
}

// Is a body all characters, ends of lines and marks?
pub fn is_proper_body<C: Code>(signs: &Signs<C>, body: &[u8]) -> bool
    ensures { result ≡ proper_body C.Code.meaning body.now }
{
    body.iter().all(|byte| is_body_byte(signs, *byte))
}
