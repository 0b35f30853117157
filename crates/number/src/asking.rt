// What functions ask of the integers that they are given, in the order of the language.
ghost use Rattle.std.specs.Prelude.{◌≡◌, ◌<◌, ◌≤◌, ◌^◌, unsigned_abs, IfOk};
ghost use Rattle.std.specs.Option.{ok_or, option_map};
ghost use Rattle.machine.specs.Numbers.{Numeral as Integer, read_integer as integer_of};
ghost use Rattle.machine.specs.Arithmetic.{if_one, if_two};
ghost use Rattle.machine.specs.Selection.{if_count};
ghost use Rattle.number.specs.Numerals.{held, value_within};
ghost use Rattle.number.specs.Results.{ComesTo, paired};

use crate::numeral::Numeral;
use crate::reading::read_integer;
use code::Code;
use refusal::Refusal;
use signs::Signs;

// The most digits of a count.
const COUNT_DIGITS: usize = 9;

impl Numeral {
    // The value, if at most that many digits are written.
    fn within(self, most: usize) -> Result<i64, Refusal>
        requires { most ≤ 18 }
        ensures { (n : Integer) → self ≡ held n → result ≡ value_within n most }
    {
        match self.value {
            Some(value) if self.digits <= most => Ok(value),
            _ => Err(Refusal::TooManyDigits),
        }
    }
}

// The integer that a text is.
fn read<C: Code>(signs: &Signs<C>, text: &[u8]) -> Result<Numeral, Refusal>
    ensures { result ≡ ok_or (option_map held (integer_of C.Code.meaning text.now)) Refusal.NoInteger }
{
    read_integer(signs, text).ok_or(Refusal::NoInteger)
}

// An integer of at most that many digits.
pub fn read_one<C: Code>(signs: &Signs<C>, text: &[u8], most: usize) -> Result<i64, Refusal>
    requires { most ≤ 18 }
    ensures comes_to { ComesTo (if_one (integer_of C.Code.meaning text.now) most) result }
    ensures small { IfOk result (λ v. unsigned_abs v < 10 ^ most) }
{
    read(signs, text)?.within(most)
}

// Two integers, of at most those many digits: first both are to be integers.
pub fn read_two<C: Code>(
    signs: &Signs<C>,
    x: &[u8],
    y: &[u8],
    most_x: usize,
    most_y: usize,
) -> Result<(i64, i64), Refusal>
    requires most_x { most_x ≤ 18 }
    requires most_y { most_y ≤ 18 }
    ensures comes_to { let code = C.Code.meaning in
        ComesTo (paired (if_two (integer_of code x.now) (integer_of code y.now) most_x most_y)) result }
    ensures x_small { IfOk result (λ v. unsigned_abs v.0 < 10 ^ most_x) }
    ensures y_small { IfOk result (λ v. unsigned_abs v.1 < 10 ^ most_y) }
{
    let (x, y) = (read(signs, x)?, read(signs, y)?);
    Ok((x.within(most_x)?, y.within(most_y)?))
}

// A count: an integer without a sign, of at most 9 digits.
pub fn read_count<C: Code>(signs: &Signs<C>, text: &[u8]) -> Result<usize, Refusal>
    ensures comes_to { ComesTo (if_count (integer_of C.Code.meaning text.now)) result }
    ensures small { IfOk result (λ n. n < 10 ^ 9) }
{
    let numeral = read(signs, text)?;
    if numeral.signed {
        return Err(Refusal::SignedInteger);
    }
    Ok(numeral.within(COUNT_DIGITS)?.unsigned_abs() as usize)
}
