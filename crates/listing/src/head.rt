// The lines before the programs.
ghost use Rattle.std.specs.Prelude.{◌≡◌, if◌then◌else◌, Some, codes};
ghost use Rattle.listing.specs.Listing.{head};

use crate::glyphs::Glyphs;
use library::{Reader, Space, count_strings};
use std::fmt;

fn yes_or_no(answer: bool) -> &'static str
    ensures { result.now ≡ (if answer then codes "yes" else codes "no") }
{
    if answer { "yes" } else { "no" }
}

// The code, how much there is, whether it is locked, and the space left.
#[derive(Clone, Copy)]
pub struct Head<'a, C, R> {
    pub code: &'a C,
    pub library: &'a R,
}

impl<C: Glyphs, R: Reader> fmt::Display for Head<'_, C, R> {
    ghost output = { λ h. Some (head C.Code.meaning C.Glyphs.title (R.Reader.meaning h.library.now)) };

    fn fmt<W: fmt::Write>(&self, f: &mut fmt::Formatter<W>) -> fmt::Result {
        let number = self.code.number();
        let title = self.code.title();
        writeln!(f, "code: {number} ({title})")?;
        let programs = self.library.programs();
        let strings = count_strings(self.library);
        writeln!(f, "programs: {programs}\nstrings: {strings}")?;
        let locked = yes_or_no(self.library.is_locked());
        writeln!(f, "locked: {locked}")?;
        let Space {
            programs,
            strings,
            bytes,
        } = self.library.space();
        writeln!(
            f,
            "space left: {programs} programs, {strings} strings, {bytes} bytes"
        )
    }
}
