// What is asked of the program that parameter 1 names.
ghost use Rattle.std.specs.Prelude.{◌≡◌};
ghost use Rattle.library.specs.Name.{fits_name};
ghost use Rattle.machine.specs.World.{p1};
ghost use Rattle.machine.specs.Libraries.{has_program};

use code::Code;
use library::{ProgramName, Reader, find_program};
use value::Sources;

// Can parameter 1 be the name of a program?
pub(crate) fn is_program_name<C: Code, R: Reader>(sources: &Sources<'_, C, R>) -> bool
    ensures { result ≡ fits_name (p1 sources.now.parameters.now) }
{
    ProgramName::new(sources.parameters.get(0)).is_some()
}

// Is the program there?
pub(crate) fn is_present<C: Code, R: Reader>(sources: &Sources<'_, C, R>) -> bool
    ensures { result ≡ has_program (p1 sources.now.parameters.now) (R.Reader.meaning sources.now.library.now) }
{
    find_program(sources.library, sources.parameters.get(0)).is_some()
}
