// The plans of these functions.
ghost use Rattle.std.specs.Prelude.{Ok};
ghost use Rattle.machine.specs.Functions.{print_string, break_off};
ghost use Rattle.machine.specs.TextFunctions.{on_text};
ghost use Rattle.plan.specs.Plans.{Plans};

use crate::giving::plan_giving;
use code::Code;
use library::Reader;
use machine::TextFunction;
use plan::{Effect, Plan};
use refusal::Refusal;
use value::{Sources, Value};

// What a function that makes a text of a parameter comes to at the parameters of a call.
pub fn plan_text<C: Code, R: Reader>(
    sources: &Sources<'_, C, R>,
    function: TextFunction,
) -> Result<Plan, Refusal>
    ensures { Plans sources.now (on_text C.Code.meaning function sources.now.parameters.now) result }
{
    match function {
        TextFunction::Gn => plan_giving(sources),
        TextFunction::Flip => Ok(Plan::of_value(Value::Reversed(0))),
        TextFunction::Trl => Ok(Plan::of_value(Value::Lowered(0))),
        TextFunction::Norm => Ok(Plan::of_value(Value::Length(0))),
    }
}

// What PS comes to, whatever its sources.
pub fn plan_print<C: Code, R: Reader>(_sources: &Sources<'_, C, R>) -> Plan
    ensures { Plans _sources.now (print_string C.Code.meaning _sources.now.parameters.now) (Ok result) }
{
    Plan::of_effect(Effect::Print)
}

// What BREAK comes to, whatever its sources.
pub fn plan_break<C: Code, R: Reader>(_sources: &Sources<'_, C, R>) -> Plan
    ensures { Plans _sources.now (break_off _sources.now.parameters.now) (Ok result) }
{
    Plan {
        value: Value::Parameter(0),
        effect: Effect::Break,
    }
}
