// The comparisons.
ghost use Rattle.std.specs.Prelude.{◌≡◌};
ghost use Rattle.std.specs.Str.{bytes_eq};
ghost use Rattle.machine.specs.Texts.{lower_text};
ghost use Rattle.machine.specs.World.{p1, p2, parameter};
ghost use Rattle.machine.specs.Arithmetic.{of_two};
ghost use Rattle.machine.specs.Comparisons.{on_comparison};
ghost use Rattle.number.specs.Results.{paired};
ghost use Rattle.plan.specs.Plans.{ComesTo, Plans};

use crate::choosing::chosen;
use code::Code;
use library::Reader;
use machine::ComparisonFunction;
use number::read_two;
use plan::Plan;
use refusal::Refusal;
use selection::is_lower;
use value::Sources;

// The most digits of the numbers.
const DIGITS: usize = 15;

// The two numbers that are compared.
fn read_numbers<C: Code, R: Reader>(sources: &Sources<'_, C, R>) -> Result<(i64, i64), Refusal>
    ensures { ComesTo sources.now (paired (λ w go. of_two C.Code.meaning sources.now.parameters.now 15 15 w go)) (λ v. v) result }
{
    let (one, other) = (sources.parameters.get(0), sources.parameters.get(1));
    read_two(sources.signs, one, other, DIGITS, DIGITS)
}

// Are the two texts that are compared the same? Their ranks do not count.
fn are_same<C: Code, R: Reader>(sources: &Sources<'_, C, R>) -> bool
    ensures { result ≡ bytes_eq (p1 sources.now.parameters.now) (p2 sources.now.parameters.now) }
{
    sources.parameters.get(0) == sources.parameters.get(1)
}

// Is the one parameter lower than the other?
fn is_lower_than<C: Code, R: Reader>(sources: &Sources<'_, C, R>, one: usize, other: usize) -> bool
    ensures { result ≡ lower_text C.Code.meaning (parameter one sources.now.parameters.now) (parameter other sources.now.parameters.now) }
{
    let (one, other) = (sources.parameters.get(one), sources.parameters.get(other));
    is_lower(sources.signs, one, other)
}

// Numbers are compared as integers, and texts by the ranks of their characters, but for their equality.
pub fn plan_comparison<C: Code, R: Reader>(
    sources: &Sources<'_, C, R>,
    function: ComparisonFunction,
) -> Result<Plan, Refusal>
    ensures { Plans sources.now (on_comparison C.Code.meaning function sources.now.parameters.now) result }
{
    let so = match function {
        ComparisonFunction::Eq => {
            let (x, y) = read_numbers(sources)?;
            x == y
        }
        ComparisonFunction::Gt => {
            let (x, y) = read_numbers(sources)?;
            x > y
        }
        ComparisonFunction::Lt => {
            let (x, y) = read_numbers(sources)?;
            x < y
        }
        ComparisonFunction::EqText => are_same(sources),
        ComparisonFunction::GtText => is_lower_than(sources, 1, 0),
        ComparisonFunction::LtText => is_lower_than(sources, 0, 1),
    };
    Ok(Plan::of_value(chosen(so)))
}
