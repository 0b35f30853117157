// Integers written as texts, without leading zeros.
ghost use Rattle.std.specs.Prelude.{◌≡◌, ◌≤◌, ◌++◌, length, drop, decimal};
ghost use Rattle.std.specs.Fmt.{signed_decimal};
ghost use Rattle.machine.specs.Texts.{spelled};
ghost use Rattle.machine.specs.Numbers.{written};

use code::Code;
use signs::Signs;

// How many digits a number has.
fn digit_count(number: u64) -> usize
    ensures { result ≡ length (decimal number) }
{
    if number < 10 {
        1
    } else {
        digit_count(number / 10) + 1
    }
}

// Writes the digits of a number, and says how many they are.
fn write_digits<C: Code>(signs: &Signs<C>, number: u64, out: &mut [u8]) -> usize
    requires { length (decimal number) ≤ length out.old }
    ensures len { result ≡ length (decimal number) }
    ensures after { out.new ≡ spelled C.Code.meaning (decimal number) ++ drop result out.old }
{
    let front = if number < 10 {
        0
    } else {
        write_digits(signs, number / 10, out)
    };
    out[front] = signs.digits[(number % 10) as usize];
    front + 1
}

// How many bytes an integer takes.
pub fn written_length(value: i64) -> usize
    ensures len { result ≡ length (signed_decimal value) }
    ensures short { result ≤ 20 }
{
    let digits = digit_count(value.unsigned_abs());
    if value < 0 { digits + 1 } else { digits }
}

// How many bytes a count takes.
pub fn count_length(count: usize) -> usize
    ensures len { result ≡ length (decimal count) }
    ensures short { result ≤ 20 }
{
    digit_count(count as u64)
}

// Writes a count at the beginning of `out`, and says how many bytes it takes.
pub fn write_count<C: Code>(signs: &Signs<C>, count: usize, out: &mut [u8]) -> usize
    requires { length (decimal count) ≤ length out.old }
    ensures len { result ≡ length (decimal count) }
    ensures after { out.new ≡ spelled C.Code.meaning (decimal count) ++ drop result out.old }
{
    write_digits(signs, count as u64, out)
}

// Writes an integer at the beginning of `out`, and says how many bytes it takes.
pub fn write_integer<C: Code>(signs: &Signs<C>, value: i64, out: &mut [u8]) -> usize
    requires { length (signed_decimal value) ≤ length out.old }
    ensures len { result ≡ length (signed_decimal value) }
    ensures after { out.new ≡ written C.Code.meaning value ++ drop result out.old }
{
    if value < 0 {
        out[0] = signs.minus;
        write_digits(signs, value.unsigned_abs(), &mut out[1..]) + 1
    } else {
        write_digits(signs, value.unsigned_abs(), out)
    }
}
