// The plans of the arithmetic functions.
ghost use Rattle.machine.specs.Arithmetic.{on_arithmetic};
ghost use Rattle.plan.specs.Plans.{Plans};

use crate::calculating::calculate;
use code::Code;
use library::Reader;
use machine::ArithmeticFunction;
use plan::Plan;
use refusal::Refusal;
use value::{Sources, Value};

// What an arithmetic function comes to at the parameters of a call.
pub fn plan_arithmetic<C: Code, R: Reader>(
    sources: &Sources<'_, C, R>,
    function: ArithmeticFunction,
) -> Result<Plan, Refusal>
    ensures { Plans sources.now (on_arithmetic C.Code.meaning function sources.now.parameters.now) result }
{
    let (first, second) = (sources.parameters.get(0), sources.parameters.get(1));
    let number = calculate(sources.signs, first, second, function)?;
    Ok(Plan::of_value(Value::Number(number)))
}
