// ASCII.
ghost use Rattle.code.specs.Ascii.{ascii, ascii_laws, ascii_order, ascii_ranks, ascii_ordered};

use crate::{Code, Ranked};

const NUMBER: u8 = 1;

const END_OF_LINE: u8 = 0x0A;

const CREATION_MARK: u8 = 0xC0;

#[derive(Clone, Copy)]
pub struct Ascii;

impl Code for Ascii {
    ghost meaning = { ascii };

    ghost laws = { ascii_laws };

    fn number(&self) -> u8 {
        NUMBER
    }

    fn is_character(&self, byte: u8) -> bool {
        matches!(byte, 0x20..=0x7E)
    }

    fn byte_of(&self, named: char) -> Option<u8> {
        match named {
            'a'..='z' | 'A'..='Z' | '0'..='9' => Some(named as u8),
            '#' | '<' | '>' | ';' | '@' | ',' | '+' | '-' | '?' => Some(named as u8),
            _ => None,
        }
    }

    fn end_of_line(&self) -> u8 {
        END_OF_LINE
    }

    fn segment_mark(&self, n: u8) -> Option<u8> {
        match n {
            1..=62 => Some(0x80 + n),
            _ => None,
        }
    }

    fn mark_number(&self, byte: u8) -> Option<u8> {
        match byte {
            0x81..=0xBE => Some(byte - 0x80),
            _ => None,
        }
    }

    fn creation_mark(&self) -> u8 {
        CREATION_MARK
    }

    fn rank(&self, byte: u8) -> Option<u8> {
        match byte {
            END_OF_LINE => Some(0),
            0x20..=0x2F => Some(byte - 31),
            0x3A..=0x40 => Some(byte - 41),
            0x5B..=0x60 => Some(byte - 67),
            0x7B..=0x7E => Some(byte - 93),
            b'a'..=b'z' => Some(byte - 63),
            b'A'..=b'Z' => Some(byte - 5),
            b'0'..=b'9' => Some(byte + 38),
            _ => None,
        }
    }

    fn lower(&self, byte: u8) -> u8 {
        match byte {
            b'A'..=b'Z' => byte + 32,
            _ => byte,
        }
    }
}

// The end of line, the special characters, a to z, A to Z, 0 to 9, in this order.
impl Ranked for Ascii {
    ghost order = { ascii_order };

    ghost ranks = { ascii_ranks };

    ghost ordered = { ascii_ordered };

    fn ranked_bytes(&self) -> u8 {
        96
    }
}
