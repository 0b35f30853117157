// The results of the arithmetic functions.
ghost use Rattle.number.specs.Results.{ComesTo};
ghost use Rattle.number_plans.specs.Calculating.{result_of};

use code::Code;
use machine::ArithmeticFunction;
use number::{absolute, add, divide, multiply, read_one, read_two, remainder, subtract};
use refusal::Refusal;
use signs::Signs;

// The most digits of an integer; a factor and a dividend have limits of their own.
const MOST_DIGITS: usize = 15;

const FACTOR_DIGITS: usize = 9;

const DIVIDEND_DIGITS: usize = 18;

// The result of a function at its first two parameters.
pub(crate) fn calculate<C: Code>(
    signs: &Signs<C>,
    first: &[u8],
    second: &[u8],
    function: ArithmeticFunction,
) -> Result<i64, Refusal>
    ensures { ComesTo (result_of C.Code.meaning function first.now second.now) result }
{
    match function {
        ArithmeticFunction::Ad => {
            let (x, y) = read_two(signs, first, second, MOST_DIGITS, MOST_DIGITS)?;
            Ok(add(x, y))
        }
        ArithmeticFunction::Su => {
            let (x, y) = read_two(signs, first, second, MOST_DIGITS, MOST_DIGITS)?;
            Ok(subtract(x, y))
        }
        ArithmeticFunction::Mu => {
            let (x, y) = read_two(signs, first, second, FACTOR_DIGITS, FACTOR_DIGITS)?;
            Ok(multiply(x, y))
        }
        ArithmeticFunction::Dv => {
            let (x, y) = read_two(signs, first, second, DIVIDEND_DIGITS, MOST_DIGITS)?;
            divide(x, y)
        }
        ArithmeticFunction::Dvr => {
            let (x, y) = read_two(signs, first, second, DIVIDEND_DIGITS, MOST_DIGITS)?;
            remainder(x, y)
        }
        ArithmeticFunction::Abs => Ok(absolute(read_one(signs, first, MOST_DIGITS)?)),
    }
}
