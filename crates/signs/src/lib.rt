// A code together with the bytes of it that the rules of the language ask for, read once.

#![tactic(auto)]

ghost use Rattle.std.specs.Prelude.{◌≡◌, ⊤, true, map, codes};
ghost use Rattle.code.specs.Meaning.{named_char};

use code::Code;
use std::alloc::AllocError;

#[derive(Drop)]
pub struct Signs<C: Code> {
    pub code: C,
    pub end_of_line: u8,
    pub creation_mark: u8,
    pub sharp: u8,
    pub less: u8,
    pub greater: u8,
    pub semicolon: u8,
    pub at: u8,
    pub comma: u8,
    pub plus: u8,
    pub minus: u8,
    pub question: u8,
    // 0 to 9
    pub digits: [u8; 10],
    // A to Z
    pub capitals: [u8; 26],
    ghost end_is: { end_of_line ≡ C.Code.meaning.end_of_line },
    ghost creation_is: { creation_mark ≡ C.Code.meaning.creation_mark },
    // # < > ; @ , + - ?
    ghost sharp_is: { sharp ≡ C.Code.meaning.named 35 },
    ghost less_is: { less ≡ C.Code.meaning.named 60 },
    ghost greater_is: { greater ≡ C.Code.meaning.named 62 },
    ghost semicolon_is: { semicolon ≡ C.Code.meaning.named 59 },
    ghost at_is: { at ≡ C.Code.meaning.named 64 },
    ghost comma_is: { comma ≡ C.Code.meaning.named 44 },
    ghost plus_is: { plus ≡ C.Code.meaning.named 43 },
    ghost minus_is: { minus ≡ C.Code.meaning.named 45 },
    ghost question_is: { question ≡ C.Code.meaning.named 63 },
    ghost digits_are: { digits ≡ map C.Code.meaning.named (codes "0123456789") },
    ghost capitals_are: { capitals ≡ map C.Code.meaning.named (codes "ABCDEFGHIJKLMNOPQRSTUVWXYZ") },
}

// Signs of a code that is copied are copied with it.
impl<C: Code + Copy> Clone for Signs<C> {
    ghost is_clone = { λ one other. other ≡ one };

    ghost is_infallible = { λ _. ⊤ };

    fn clone(&self) -> Result<Self, AllocError> {
        Ok(*self)
    }
}

impl<C: Code + Copy> Copy for Signs<C> {}

// The byte of a named character.
fn spell<C: Code>(code: &C, named: char) -> u8
    requires { named_char named ≡ true }
    ensures { result ≡ C.Code.meaning.named named }
{
    code.byte_of(named).unwrap()
}

// The signs of a code: that they are its signs stands in the type.
pub fn read_signs<C: Code>(code: C) -> Signs<C>
    ensures { result.code ≡ code }
{
    let spelled = &code;
    Signs {
        end_of_line: spelled.end_of_line(),
        creation_mark: spelled.creation_mark(),
        sharp: spell(spelled, '#'),
        less: spell(spelled, '<'),
        greater: spell(spelled, '>'),
        semicolon: spell(spelled, ';'),
        at: spell(spelled, '@'),
        comma: spell(spelled, ','),
        plus: spell(spelled, '+'),
        minus: spell(spelled, '-'),
        question: spell(spelled, '?'),
        digits: b"0123456789".map(|named| spell(spelled, named as char)),
        capitals: b"ABCDEFGHIJKLMNOPQRSTUVWXYZ".map(|named| spell(spelled, named as char)),
        code,
    }
}
