// STORE.
ghost use Rattle.std.specs.Prelude.{◌≡◌};
ghost use Rattle.library.specs.Keeping.{fits, space_of};
ghost use Rattle.machine.specs.Libraries.{store_program};
ghost use Rattle.plan.specs.Plans.{Plans};
ghost use Rattle.library_plans.specs.Named.{program_made};

use crate::asking::{is_present, is_program_name};
use crate::strings::{are_defined, are_strings, room_after};
use code::Code;
use library::Reader;
use plan::{Effect, Plan};
use refusal::Refusal;
use value::Sources;

// Is there space for the program?
fn has_space<C: Code, R: Reader>(sources: &Sources<'_, C, R>) -> bool
    ensures { result ≡ fits (space_of (program_made sources.now)) (R.Reader.meaning sources.now.library.now).space }
{
    let space = sources.library.space();
    let parameters = sources.parameters;
    let Some(room) = space.bytes.checked_sub(parameters.get(0).len()) else {
        return false;
    };
    space.programs > 0
        && parameters.len().saturating_sub(1) <= space.strings
        && room_after(sources, room).is_some()
}

// A program of the name 1 and of the strings that the other parameters name, each with its whole body.
pub fn plan_store<C: Code, R: Reader>(sources: &Sources<'_, C, R>) -> Result<Plan, Refusal>
    ensures { Plans sources.now (store_program C.Code.meaning sources.now.parameters.now) result }
{
    if !are_defined(sources) {
        return Err(Refusal::NameUndefined);
    }
    if !are_strings(sources) {
        return Err(Refusal::NotAString);
    }
    if !is_program_name(sources) {
        return Err(Refusal::ProgramNameLength);
    }
    if sources.library.is_locked() {
        return Err(Refusal::Locked);
    }
    if is_present(sources) {
        return Err(Refusal::ProgramPresent);
    }
    if !has_space(sources) {
        return Err(Refusal::LibraryFull);
    }
    Ok(Plan::of_effect(Effect::Store))
}
