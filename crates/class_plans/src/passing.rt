// The functions that move the pointer past a run.
ghost use Rattle.std.specs.Prelude.{◌≡◌, ◌+◌};
ghost use Rattle.machine.specs.Classes.{call_class, skip_class};
ghost use Rattle.plan.specs.declared.effect.Effect.TheVariants.{MovePointer};
ghost use Rattle.plan.specs.Plans.{Plans};

use crate::reading::find_run;
use crate::run::Run;
use code::Code;
use library::Reader;
use plan::{Effect, Plan};
use refusal::Refusal;
use value::{Sources, Value};

impl Run {
    // A value, and the pointer of the string 2 moves past the run.
    fn passed(self, value: Value) -> Plan
        ensures { result ≡ record { value = value; effect = MovePointer 1 self.string (self.string.extent.pointer + self.len) } }
    {
        Plan {
            value,
            effect: Effect::MovePointer {
                name: 1,
                string: self.string,
                pointer: self.string.extent.pointer + self.len,
            },
        }
    }
}

// CCL: the run is the value. No member is a mark.
pub(crate) fn plan_call<C: Code, R: Reader>(sources: &Sources<'_, C, R>) -> Result<Plan, Refusal>
    ensures { Plans sources.now (call_class C.Code.meaning sources.now.parameters.now) result }
{
    let run = find_run(sources)?;
    let value = Value::Passed {
        string: run.string,
        len: run.len,
    };
    Ok(run.passed(value))
}

// SCL: there is no value.
pub(crate) fn plan_skip<C: Code, R: Reader>(sources: &Sources<'_, C, R>) -> Result<Plan, Refusal>
    ensures { Plans sources.now (skip_class C.Code.meaning sources.now.parameters.now) result }
{
    let run = find_run(sources)?;
    Ok(run.passed(Value::Nothing))
}
