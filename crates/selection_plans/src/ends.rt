// The start and the end of a string: RRP and EOS.
ghost use Rattle.machine.specs.Selection.{reset_pointer, end_of_string};
ghost use Rattle.plan.specs.Plans.{Plans};

use code::Code;
use library::Reader;
use plan::{Effect, Plan, find_string};
use refusal::Refusal;
use value::{Sources, Value};

// The pointer of the string 1 is back at the start.
pub(crate) fn reset_pointer<C: Code, R: Reader>(
    sources: &Sources<'_, C, R>,
) -> Result<Plan, Refusal>
    ensures { Plans sources.now (reset_pointer C.Code.meaning sources.now.parameters.now) result }
{
    let string = find_string(sources, 0)?;
    Ok(Plan::of_effect(Effect::MovePointer {
        name: 0,
        string,
        pointer: 0,
    }))
}

// Parameter 2 if nothing is left of the string 1, not even a mark; else parameter 3.
pub(crate) fn end_of_string<C: Code, R: Reader>(
    sources: &Sources<'_, C, R>,
) -> Result<Plan, Refusal>
    ensures { Plans sources.now (end_of_string C.Code.meaning sources.now.parameters.now) result }
{
    let string = find_string(sources, 0)?;
    let at_end = sources.dictionary.rest(sources.store, string).is_empty();
    let chosen = if at_end { 1 } else { 2 };
    Ok(Plan::of_value(Value::Parameter(chosen)))
}
