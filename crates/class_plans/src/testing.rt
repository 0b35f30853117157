// The function that tests for a member.
ghost use Rattle.machine.specs.Classes.{test_class};
ghost use Rattle.plan.specs.Plans.{Plans};

use crate::reading::begins_with_class;
use choice_plans::chosen;
use code::Code;
use library::Reader;
use plan::Plan;
use refusal::Refusal;
use value::Sources;

// TCL: parameter 3 if the string begins with a member, else parameter 4.
pub(crate) fn plan_test<C: Code, R: Reader>(sources: &Sources<'_, C, R>) -> Result<Plan, Refusal>
    ensures { Plans sources.now (test_class C.Code.meaning sources.now.parameters.now) result }
{
    let begins = begins_with_class(sources)?;
    Ok(Plan::of_value(chosen(begins)))
}
