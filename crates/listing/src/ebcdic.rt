// The glyphs of EBCDIC: the characters that all its tables share.
ghost use Rattle.std.specs.Prelude.{◌≡◌, codes};
ghost use Rattle.listing.specs.Ebcdic.{ebcdic_glyph, ebcdic_printable, special as special_glyph};

use crate::glyphs::Glyphs;
use code::Ebcdic;

impl Glyphs for Ebcdic {
    ghost glyph = { ebcdic_glyph };

    ghost printable = { ebcdic_printable };

    ghost title = { codes "EBCDIC" };

    fn glyph(&self, byte: u8) -> Option<char> {
        match byte {
            0x81..=0x89 => Some(char::from(b'a' + (byte - 0x81))),
            0x91..=0x99 => Some(char::from(b'j' + (byte - 0x91))),
            0xA2..=0xA9 => Some(char::from(b's' + (byte - 0xA2))),
            0xC1..=0xC9 => Some(char::from(b'A' + (byte - 0xC1))),
            0xD1..=0xD9 => Some(char::from(b'J' + (byte - 0xD1))),
            0xE2..=0xE9 => Some(char::from(b'S' + (byte - 0xE2))),
            0xF0..=0xF9 => Some(char::from(b'0' + (byte - 0xF0))),
            _ => special(byte),
        }
    }

    fn title(&self) -> &'static str {
        "EBCDIC"
    }
}

// The character of a byte that is no letter and no digit.
fn special(byte: u8) -> Option<char>
    ensures { result ≡ special_glyph byte }
{
    match byte {
        0x40 => Some(' '),
        0x4B => Some('.'),
        0x4C => Some('<'),
        0x4D => Some('('),
        0x4E => Some('+'),
        0x50 => Some('&'),
        0x5C => Some('*'),
        0x5D => Some(')'),
        0x5E => Some(';'),
        0x60 => Some('-'),
        0x61 => Some('/'),
        0x6B => Some(','),
        0x6C => Some('%'),
        0x6D => Some('_'),
        0x6E => Some('>'),
        0x6F => Some('?'),
        0x7A => Some(':'),
        0x7B => Some('#'),
        0x7C => Some('@'),
        0x7D => Some('\''),
        0x7E => Some('='),
        0x7F => Some('"'),
        _ => None,
    }
}
