// Whether two libraries hold the same programs.
ghost use Rattle.std.specs.Prelude.{◌≡◌, Decides};
ghost use Rattle.library.specs.Views.{program_viewed, string_viewed};

use library::{ProgramView, Reader, Source, StringView, each_program, each_string};

// Are two strings the same, by their names and their bodies?
fn same_string(one: &StringView, other: &StringView) -> bool
    ensures { Decides result (string_viewed one.now ≡ string_viewed other.now) }
{
    one == other
}

fn same_strings<S: Source, Q: Source>(one: &S, other: &Q) -> bool
    ensures { Decides result (S.Source.strings one.now ≡ Q.Source.strings other.now) }
{
    one.count() == other.count()
        && each_string(one)
            .zip(each_string(other))
            .all(|(string, theirs)| same_string(&string, &theirs))
}

// Are two programs the same, by their names and their strings?
fn same_program<R: Reader, Q: Reader>(one: &ProgramView<'_, R>, other: &ProgramView<'_, Q>) -> bool
    ensures { Decides result (program_viewed R.Reader.meaning one.now ≡ program_viewed Q.Reader.meaning other.now) }
{
    one.name == other.name && same_strings(one, other)
}

// Are they the same programs, byte for byte and in the same order?
pub fn same_programs<R: Reader, Q: Reader>(one: &R, other: &Q) -> bool
    ensures { Decides result ((R.Reader.meaning one.now).programs ≡ (Q.Reader.meaning other.now).programs) }
{
    one.programs() == other.programs()
        && each_program(one)
            .zip(each_program(other))
            .all(|(program, theirs)| same_program(&program, &theirs))
}
