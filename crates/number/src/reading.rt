// Texts read as decimal integers.
ghost use Rattle.std.specs.Prelude.{◌≡◌, ◌<◌, ◌^◌};
ghost use Rattle.std.specs.Option.{option_map};
ghost use Rattle.machine.specs.Numbers.{digit as digit_of, read_digits as digits_of, read_integer as integer_of};
ghost use Rattle.number.specs.Numerals.{behind, capped, held, is_written, signed_value};

use crate::numeral::Numeral;
use code::Code;
use signs::Signs;

// Any value of so many digits fits an i64.
const MOST_DIGITS: usize = 18;

// What stands before the digits.
#[derive(Clone, Copy)]
enum Sign {
    Unwritten,
    Plus,
    Minus,
}

impl Sign {
    fn is_written(self) -> bool
        ensures { result ≡ is_written self }
    {
        match self {
            Sign::Unwritten => false,
            Sign::Plus | Sign::Minus => true,
        }
    }

    // The value of digits behind the sign.
    fn apply(self, magnitude: u64) -> i64
        requires { magnitude < 10 ^ 18 }
        ensures { result ≡ signed_value self magnitude }
    {
        let value = magnitude as i64;
        match self {
            Sign::Unwritten | Sign::Plus => value,
            Sign::Minus => -value,
        }
    }
}

// The value of a digit.
fn digit<C: Code>(signs: &Signs<C>, byte: u8) -> Option<usize>
    ensures { result ≡ digit_of C.Code.meaning byte }
{
    signs.digits.iter().position(|sign| *sign == byte)
}

// The value of a text of digits; the largest u64 stands for any larger one.
fn read_digits<C: Code>(signs: &Signs<C>, text: &[u8]) -> Option<u64>
    ensures { result ≡ option_map capped (digits_of C.Code.meaning text.now) }
{
    if text.is_empty() {
        return None;
    }
    let mut value: u64 = 0;
    for byte in text {
        let next = digit(signs, *byte)?;
        value = value.saturating_mul(10).saturating_add(next as u64);
    }
    Some(value)
}

// The integer whose digits these are, behind that sign.
fn read_behind<C: Code>(signs: &Signs<C>, sign: Sign, digits: &[u8]) -> Option<Numeral>
    ensures { result ≡ option_map held (behind C.Code.meaning sign digits.now) }
{
    let magnitude = read_digits(signs, digits)?;
    let value = if digits.len() <= MOST_DIGITS {
        Some(sign.apply(magnitude))
    } else {
        None
    };
    Some(Numeral {
        signed: sign.is_written(),
        digits: digits.len(),
        value,
    })
}

// The integer that a text is: nothing, which is 0; or a sign, which may be left out, and digits.
pub fn read_integer<C: Code>(signs: &Signs<C>, text: &[u8]) -> Option<Numeral>
    ensures { result ≡ option_map held (integer_of C.Code.meaning text.now) }
{
    match text {
        [] => Some(Numeral {
            signed: false,
            digits: 0,
            value: Some(0),
        }),
        [first, digits @ ..] if *first == signs.minus => read_behind(signs, Sign::Minus, digits),
        [first, digits @ ..] if *first == signs.plus => read_behind(signs, Sign::Plus, digits),
        digits => read_behind(signs, Sign::Unwritten, digits),
    }
}
