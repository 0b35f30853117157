// Is a name defined?
ghost use Rattle.std.specs.Prelude.{Ok};
ghost use Rattle.machine.specs.Functions.{name_defined};
ghost use Rattle.plan.specs.Plans.{Plans};

use code::Code;
use library::Reader;
use plan::Plan;
use value::{Sources, Value};

// Parameter 2 if parameter 1 is a name in the dictionary, that of a built-in too, else parameter 3.
pub fn plan_name_defined<C: Code, R: Reader>(sources: &Sources<'_, C, R>) -> Plan
    ensures { Plans sources.now (name_defined C.Code.meaning sources.now.parameters.now) (Ok result) }
{
    let name = sources.parameters.get(0);
    let meaning = sources
        .dictionary
        .look_up(sources.signs, sources.store, name);
    Plan::of_value(Value::Parameter(if meaning.is_some() { 1 } else { 2 }))
}
