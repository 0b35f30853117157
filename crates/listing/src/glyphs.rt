// How the bytes of a code are shown.
ghost use Rattle.std.specs.Prelude.{◌≡◌, ℕ, List, Option};
ghost use Rattle.listing.specs.Glyphs.{GlyphLaw};

use code::Code;

// A code whose bytes can be shown. Each function answers exactly the ghost member of its name.
pub trait Glyphs: Code {
    ghost glyph: { ℕ → Option ℕ };

    // A glyph is printable ASCII, and no brace.
    ghost printable: { GlyphLaw glyph };

    ghost title: { List ℕ };

    // The character by which a byte is shown; `None` for a byte that is shown by its number.
    fn glyph(&self, byte: u8) -> Option<char>
        ensures { result ≡ glyph byte };

    // The name of the code.
    fn title(&self) -> &'static str
        ensures { result.now ≡ title };
}
