// A call of a function on classes.
ghost use Rattle.machine.specs.Classes.{on_classes};
ghost use Rattle.plan.specs.Plans.{Plans};

use crate::defining::{plan_class_of_bytes, plan_class_of_others};
use crate::passing::{plan_call, plan_skip};
use crate::testing::plan_test;
use code::Code;
use library::Reader;
use machine::ClassFunction;
use plan::{Effect, Plan};
use refusal::Refusal;
use value::Sources;

// What a call of the function comes to.
pub fn plan_class<C: Code, R: Reader>(
    sources: &Sources<'_, C, R>,
    function: ClassFunction,
) -> Result<Plan, Refusal>
    ensures { Plans sources.now (on_classes C.Code.meaning function sources.now.parameters.now) result }
{
    match function {
        ClassFunction::Dcl => plan_class_of_bytes(sources),
        ClassFunction::Dncl => plan_class_of_others(sources),
        ClassFunction::Ecl => Ok(Plan::of_effect(Effect::EraseClasses)),
        ClassFunction::Ccl => plan_call(sources),
        ClassFunction::Scl => plan_skip(sources),
        ClassFunction::Tcl => plan_test(sources),
    }
}
