// The bytes that GN gives.
ghost use Rattle.std.specs.Prelude.{◌≡◌};
ghost use Rattle.machine.specs.TextFunctions.{give_characters};
ghost use Rattle.plan.specs.Plans.{Plans};
ghost use Rattle.text_plans.specs.Giving.{given_bytes};

use code::Code;
use library::Reader;
use number::read_one;
use plan::Plan;
use refusal::Refusal;
use value::{Sources, Value};

// The most digits of the number of bytes.
const MOST_DIGITS: usize = 9;

// So many bytes of parameter 2; for a negative number all but so many.
fn given_bytes(count: i64) -> Value
    ensures { result ≡ given_bytes count }
{
    let (parameter, len) = (1, count.unsigned_abs() as usize);
    if count < 0 {
        Value::Behind { parameter, len }
    } else {
        Value::Front { parameter, len }
    }
}

// What GN comes to at the parameters of a call.
pub(crate) fn plan_giving<C: Code, R: Reader>(sources: &Sources<'_, C, R>) -> Result<Plan, Refusal>
    ensures { Plans sources.now (give_characters C.Code.meaning sources.now.parameters.now) result }
{
    let count = read_one(sources.signs, sources.parameters.get(0), MOST_DIGITS)?;
    Ok(Plan::of_value(given_bytes(count)))
}
