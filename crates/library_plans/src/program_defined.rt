// PDF.
ghost use Rattle.machine.specs.Libraries.{program_defined};
ghost use Rattle.plan.specs.Plans.{Plans};

use crate::asking::{is_present, is_program_name};
use code::Code;
use library::Reader;
use plan::Plan;
use refusal::Refusal;
use value::{Sources, Value};

// Parameter 2 if the program of the name 1 is there, and else 3.
pub fn plan_program_defined<C: Code, R: Reader>(
    sources: &Sources<'_, C, R>,
) -> Result<Plan, Refusal>
    ensures { Plans sources.now (program_defined sources.now.parameters.now) result }
{
    if !is_program_name(sources) {
        return Err(Refusal::ProgramNameLength);
    }
    if is_present(sources) {
        Ok(Plan::of_value(Value::Parameter(1)))
    } else {
        Ok(Plan::of_value(Value::Parameter(2)))
    }
}
