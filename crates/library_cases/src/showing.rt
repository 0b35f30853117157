// Answers in words.
ghost use Rattle.std.specs.Prelude.{Some};
ghost use Rattle.std.specs.List.{flat_map};
ghost use Rattle.std.specs.Result.{result_err};
ghost use Rattle.library.specs.Views.{string_viewed, program_viewed};
ghost use Rattle.library_cases.specs.Showing.{shown_bytes, shown_string, shown_program, shown_library, shown_outcome, shown_place};

use hex_text::Hex;
use library::{ProgramView, Reader, Source, Space, StringView, each_program, each_string};
use refusal::Refusal;
use std::fmt;

// Whether it was refused, and by which number.
#[derive(Clone, Copy)]
pub struct ShownOutcome(pub Result<(), Refusal>);

impl fmt::Display for ShownOutcome {
    ghost output = { λ s. Some (shown_outcome (result_err s.0)) };

    fn fmt<W: fmt::Write>(&self, f: &mut fmt::Formatter<W>) -> fmt::Result {
        match self.0 {
            Ok(()) => write!(f, "ok"),
            Err(refusal) => write!(f, "refused {}", refusal.number()),
        }
    }
}

// Where a program stands.
#[derive(Clone, Copy)]
pub struct ShownPlace(pub Option<usize>);

impl fmt::Display for ShownPlace {
    ghost output = { λ s. Some (shown_place s.0) };

    fn fmt<W: fmt::Write>(&self, f: &mut fmt::Formatter<W>) -> fmt::Result {
        match self.0 {
            Some(place) => write!(f, "at {place}"),
            None => write!(f, "absent"),
        }
    }
}

// Bytes in hex, - for none.
#[derive(Clone, Copy)]
struct ShownBytes<'a>(&'a [u8]);

impl fmt::Display for ShownBytes<'_> {
    ghost output = { λ s. Some (shown_bytes s.0.now) };

    fn fmt<W: fmt::Write>(&self, f: &mut fmt::Formatter<W>) -> fmt::Result {
        if self.0.is_empty() {
            write!(f, "-")
        } else {
            write!(f, "{}", Hex(self.0))
        }
    }
}

// A string: its name and its body.
#[derive(Clone, Copy)]
struct ShownString<'a>(StringView<'a>);

impl fmt::Display for ShownString<'_> {
    ghost output = { λ s. Some (shown_string (string_viewed s.0)) };

    #[tactic(auto, unfolding(crate::specs::Showing::shown_string))]
    fn fmt<W: fmt::Write>(&self, f: &mut fmt::Formatter<W>) -> fmt::Result {
        let StringView { name, body } = self.0;
        write!(f, " {}={}", ShownBytes(name), ShownBytes(body))
    }
}

// The strings of a program in order.
#[derive(Clone, Copy)]
struct ShownStrings<'a, S>(&'a S);

impl<S: Source> fmt::Display for ShownStrings<'_, S> {
    ghost output = { λ s. Some (flat_map shown_string (S.Source.strings s.0.now)) };

    fn fmt<W: fmt::Write>(&self, f: &mut fmt::Formatter<W>) -> fmt::Result {
        for string in each_string(self.0) {
            write!(f, "{}", ShownString(string))?;
        }
        Ok(())
    }
}

// A program: its name and its strings.
#[derive(Clone, Copy)]
struct ShownProgram<'a, R>(ProgramView<'a, R>);

impl<R: Reader> fmt::Display for ShownProgram<'_, R> {
    ghost output = { λ s. Some (shown_program (program_viewed R.Reader.meaning s.0)) };

    #[tactic(auto, unfolding(crate::specs::Showing::shown_program))]
    fn fmt<W: fmt::Write>(&self, f: &mut fmt::Formatter<W>) -> fmt::Result {
        let name = ShownBytes(self.0.name);
        let strings = ShownStrings(&self.0);
        write!(f, " {name}:{strings}")
    }
}

// The whole library: whether it is locked, the space left, and the programs in order.
#[derive(Clone, Copy)]
pub struct ShownLibrary<'a, R>(pub &'a R);

impl<R: Reader> fmt::Display for ShownLibrary<'_, R> {
    ghost output = { λ s. Some (shown_library (R.Reader.meaning s.0.now)) };

    fn fmt<W: fmt::Write>(&self, f: &mut fmt::Formatter<W>) -> fmt::Result {
        let library = self.0;
        let locked = if library.is_locked() { "yes" } else { "no" };
        let Space {
            programs,
            strings,
            bytes,
        } = library.space();
        write!(f, "locked {locked} left {programs} {strings} {bytes}")?;
        for program in each_program(library) {
            write!(f, "{}", ShownProgram(program))?;
        }
        Ok(())
    }
}
