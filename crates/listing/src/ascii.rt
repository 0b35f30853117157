// The glyphs of ASCII.
ghost use Rattle.std.specs.Prelude.{codes};
ghost use Rattle.listing.specs.Ascii.{ascii_glyph, ascii_printable};

use crate::glyphs::Glyphs;
use code::Ascii;

impl Glyphs for Ascii {
    ghost glyph = { ascii_glyph };

    ghost printable = { ascii_printable };

    ghost title = { codes "ASCII" };

    fn glyph(&self, byte: u8) -> Option<char> {
        match byte {
            b'{' | b'}' => None,
            0x20..=0x7E => Some(char::from(byte)),
            _ => None,
        }
    }

    fn title(&self) -> &'static str {
        "ASCII"
    }
}
