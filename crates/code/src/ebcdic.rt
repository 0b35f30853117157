// EBCDIC. Its segment marks leave out the byte of the end of line.
ghost use Rattle.code.specs.Ebcdic.{ebcdic, ebcdic_laws, ebcdic_order, ebcdic_ordered};

use crate::{Code, Ranked};

const NUMBER: u8 = 2;

const END_OF_LINE: u8 = 0x15;

const CREATION_MARK: u8 = 0xFA;

#[derive(Clone, Copy)]
pub struct Ebcdic;

impl Code for Ebcdic {
    ghost meaning = { ebcdic };

    ghost laws = { ebcdic_laws };

    fn number(&self) -> u8 {
        NUMBER
    }

    fn is_character(&self, byte: u8) -> bool {
        matches!(byte, 0x40..=0xF9)
    }

    fn byte_of(&self, named: char) -> Option<u8> {
        match named {
            'a'..='i' => Some(0x81 + (named as u8 - b'a')),
            'j'..='r' => Some(0x91 + (named as u8 - b'j')),
            's'..='z' => Some(0xA2 + (named as u8 - b's')),
            'A'..='I' => Some(0xC1 + (named as u8 - b'A')),
            'J'..='R' => Some(0xD1 + (named as u8 - b'J')),
            'S'..='Z' => Some(0xE2 + (named as u8 - b'S')),
            '0'..='9' => Some(0xF0 + (named as u8 - b'0')),
            '#' => Some(0x7B),
            '<' => Some(0x4C),
            '>' => Some(0x6E),
            ';' => Some(0x5E),
            '@' => Some(0x7C),
            ',' => Some(0x6B),
            '+' => Some(0x4E),
            '-' => Some(0x60),
            '?' => Some(0x6F),
            _ => None,
        }
    }

    fn end_of_line(&self) -> u8 {
        END_OF_LINE
    }

    fn segment_mark(&self, n: u8) -> Option<u8> {
        match n {
            1..=20 => Some(n),
            21..=62 => Some(n + 1),
            _ => None,
        }
    }

    fn mark_number(&self, byte: u8) -> Option<u8> {
        match byte {
            0x01..=0x14 => Some(byte),
            0x16..=0x3F => Some(byte - 1),
            _ => None,
        }
    }

    fn creation_mark(&self) -> u8 {
        CREATION_MARK
    }

    fn rank(&self, byte: u8) -> Option<u8> {
        match byte {
            END_OF_LINE | 0x40..=0xF9 => Some(byte),
            _ => None,
        }
    }

    fn lower(&self, byte: u8) -> u8 {
        match byte {
            0xC1..=0xC9 | 0xD1..=0xD9 | 0xE2..=0xE9 => byte - 0x40,
            _ => byte,
        }
    }
}

// The end of line, then the characters in byte order; each is its own rank.
impl Ranked for Ebcdic {
    ghost order = { ebcdic_order };

    ghost ranks = { ebcdic_order };

    ghost ordered = { ebcdic_ordered };

    fn ranked_bytes(&self) -> u8 {
        187
    }
}
