// The operations on integers as they were read.
ghost use Rattle.std.specs.Prelude.{◌≡◌, ◌<◌, ◌^◌, pos, ◌+ℤ◌, ◌-ℤ◌, ◌*ℤ◌, int_div, int_rem, unsigned_abs};
ghost use Rattle.machine.specs.Arithmetic.{divides as divides_in, fifteen_digits};
ghost use Rattle.number.specs.Results.{ComesTo, dividing};

use refusal::Refusal;

// The least value of more than 15 digits.
const TEN_TO_15: i64 = 1_000_000_000_000_000;

// The last 15 digits of the sum, with its sign.
pub fn add(x: i64, y: i64) -> i64
    requires x_small { unsigned_abs x < 10 ^ 15 }
    requires y_small { unsigned_abs y < 10 ^ 15 }
    ensures { result ≡ fifteen_digits (x +ℤ y) }
{
    (x + y) % TEN_TO_15
}

// The last 15 digits of the difference, with its sign.
pub fn subtract(x: i64, y: i64) -> i64
    requires x_small { unsigned_abs x < 10 ^ 15 }
    requires y_small { unsigned_abs y < 10 ^ 15 }
    ensures { result ≡ fifteen_digits (x -ℤ y) }
{
    (x - y) % TEN_TO_15
}

pub fn multiply(x: i64, y: i64) -> i64
    requires x_small { unsigned_abs x < 10 ^ 9 }
    requires y_small { unsigned_abs y < 10 ^ 9 }
    ensures { result ≡ x *ℤ y }
{
    x * y
}

// Is there a quotient, of at most 15 digits?
fn divides(x: i64, y: i64) -> bool
    requires { unsigned_abs x < 10 ^ 18 }
    ensures { result ≡ divides_in x y }
{
    y != 0 && (x / y).abs() < TEN_TO_15
}

// The quotient, cut toward zero.
pub fn divide(x: i64, y: i64) -> Result<i64, Refusal>
    requires { unsigned_abs x < 10 ^ 18 }
    ensures { ComesTo (dividing x y int_div) result }
{
    if divides(x, y) {
        Ok(x / y)
    } else {
        Err(Refusal::NoQuotient)
    }
}

// The remainder, with the sign of the dividend.
pub fn remainder(x: i64, y: i64) -> Result<i64, Refusal>
    requires { unsigned_abs x < 10 ^ 18 }
    ensures { ComesTo (dividing x y int_rem) result }
{
    if divides(x, y) {
        Ok(x % y)
    } else {
        Err(Refusal::NoQuotient)
    }
}

pub fn absolute(x: i64) -> i64
    requires { unsigned_abs x < 10 ^ 15 }
    ensures { result ≡ pos (unsigned_abs x) }
{
    x.abs()
}
