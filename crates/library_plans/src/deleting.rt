// DELETE.
ghost use Rattle.machine.specs.Libraries.{delete_program};
ghost use Rattle.plan.specs.Plans.{Plans};

use crate::asking::{is_present, is_program_name};
use code::Code;
use library::Reader;
use plan::{Effect, Plan};
use refusal::Refusal;
use value::Sources;

// The program of the name 1 goes.
pub fn plan_delete<C: Code, R: Reader>(sources: &Sources<'_, C, R>) -> Result<Plan, Refusal>
    ensures { Plans sources.now (delete_program sources.now.parameters.now) result }
{
    if !is_program_name(sources) {
        return Err(Refusal::ProgramNameLength);
    }
    if sources.library.is_locked() {
        return Err(Refusal::Locked);
    }
    if !is_present(sources) {
        return Err(Refusal::ProgramAbsent);
    }
    Ok(Plan::of_effect(Effect::Delete))
}
