// Finding a built-in function by its name, spelled in the bytes of a code.
ghost use Rattle.std.specs.Prelude.{◌≡◌, map};
ghost use Rattle.std.specs.Str.{bytes_eq};
ghost use Rattle.machine.specs.Texts.{spelled};
ghost use Rattle.machine.specs.BuiltIns.{built_in_named};
ghost use Rattle.built_ins.specs.Spelling.{letter_or_question};

use crate::table::built_ins;
use code::Code;
use machine::BuiltIn;
use signs::Signs;

// The byte of a letter, or of the question mark.
fn letter_sign<C: Code>(signs: &Signs<C>, letter: u8) -> u8
    ensures { result ≡ C.Code.meaning.named (letter_or_question letter) }
{
    match letter {
        b'A'..=b'Z' => signs.capitals[usize::from(letter - b'A')],
        _ => signs.question,
    }
}

// Is the name spelled by these letters?
fn is_spelled<C: Code>(signs: &Signs<C>, letters: &[u8], name: &[u8]) -> bool
    ensures { result ≡ bytes_eq (spelled C.Code.meaning (map letter_or_question letters.now)) name.now }
{
    letters.len() == name.len()
        && letters
            .iter()
            .zip(name)
            .all(|(letter, byte)| letter_sign(signs, *letter) == *byte)
}

// The built-in function of a name.
pub fn find_built_in<C: Code>(signs: &Signs<C>, name: &[u8]) -> Option<BuiltIn>
    ensures { result ≡ built_in_named C.Code.meaning name.now }
{
    built_ins()
        .iter()
        .find(|entry| is_spelled(signs, entry.letters, name))
        .map(|entry| entry.function)
}
