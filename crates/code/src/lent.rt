// A code that is lent is a code.

use crate::Code;

impl<C: Code> Code for &C {
    ghost meaning = { C.Code.meaning };

    ghost laws = { C.Code.laws };

    fn number(&self) -> u8 {
        (**self).number()
    }

    fn is_character(&self, byte: u8) -> bool {
        (**self).is_character(byte)
    }

    fn byte_of(&self, named: char) -> Option<u8> {
        (**self).byte_of(named)
    }

    fn end_of_line(&self) -> u8 {
        (**self).end_of_line()
    }

    fn segment_mark(&self, n: u8) -> Option<u8> {
        (**self).segment_mark(n)
    }

    fn mark_number(&self, byte: u8) -> Option<u8> {
        (**self).mark_number(byte)
    }

    fn creation_mark(&self) -> u8 {
        (**self).creation_mark()
    }

    fn rank(&self, byte: u8) -> Option<u8> {
        (**self).rank(byte)
    }

    fn lower(&self, byte: u8) -> u8 {
        (**self).lower(byte)
    }
}
