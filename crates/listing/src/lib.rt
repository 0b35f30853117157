// A library of programs as readable text.

#![tactic(auto)]

ghost use Rattle.std.specs.Prelude.{◌≡◌, Some, IfOk, string_bytes};
ghost use Rattle.listing.specs.Adds.{Adds};
ghost use Rattle.listing.specs.Listing.{listing};

mod ascii;
mod ebcdic;
mod glyphs;
mod head;
mod programs;
mod text;

pub use glyphs::Glyphs;
use head::Head;
use library::Reader;
use programs::ShownPrograms;
use std::alloc::{AllocError, Global};
use std::fmt;

// A library as text: the code, how much there is, and each program with its strings.
#[derive(Clone, Copy)]
pub struct Listing<'a, C, R> {
    pub code: &'a C,
    pub library: &'a R,
}

impl<C: Glyphs, R: Reader> fmt::Display for Listing<'_, C, R> {
    ghost output = { λ l. Some (listing C.Code.meaning C.Glyphs.title C.Glyphs.glyph (R.Reader.meaning l.library.now)) };

    #[tactic(auto, unfolding(crate::specs::Listing::listing))]
    fn fmt<W: fmt::Write>(&self, f: &mut fmt::Formatter<W>) -> fmt::Result {
        let Listing { code, library } = *self;
        let head = Head { code, library };
        let programs = ShownPrograms { code, library };
        write!(f, "{head}{programs}")
    }
}

// Adds the text to another.
pub fn push_listing<C: Glyphs, R: Reader>(
    out: &mut String,
    code: &C,
    library: &R,
) -> Result<(), AllocError>
    ensures { Adds out.old result out.new (listing C.Code.meaning C.Glyphs.title C.Glyphs.glyph (R.Reader.meaning library.now)) }
{
    write!(out, "{}", Listing { code, library })
}

// The text alone.
pub fn render<C: Glyphs, R: Reader>(
    heap: Global,
    code: &C,
    library: &R,
) -> Result<String, AllocError>
    ensures { IfOk result (λ s. string_bytes s ≡ listing C.Code.meaning C.Glyphs.title C.Glyphs.glyph (R.Reader.meaning library.now)) }
{
    Listing { code, library }.to_string(heap)
}
