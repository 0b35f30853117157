// Bytes to text in hex.
ghost use Rattle.std.specs.Prelude.{◌≡◌, ◌≤◌, ◌<◌, ◌*◌, ◌++◌, length, take, string_bytes, OnOk, Some};
ghost use Rattle.std.specs.Fmt.{WritesOnOk};
ghost use Rattle.hex_text.specs.Hex.{digit_of, hexed, ReadsBack};

use std::alloc::AllocError;
use std::fmt;
use std::str::from_utf8;

// The digit of a value below 16.
fn digit(value: u8) -> u8
    requires { value < 16 }
    ensures { result ≡ digit_of value }
{
    if value < 10 {
        b'0' + value
    } else {
        b'a' + (value - 10)
    }
}

// Puts a few bytes in hex at the front of a buffer.
fn put_digits(bytes: &[u8], digits: &mut [u8; 64])
    requires { length bytes.now ≤ 32 }
    ensures { take (2 * length bytes.now) digits.new ≡ hexed bytes.now }
{
    for (at, byte) in bytes.iter().enumerate() {
        digits[2 * at] = digit(*byte / 16);
        digits[2 * at + 1] = digit(*byte % 16);
    }
}

// Writes a few bytes in hex, all their digits at once.
fn write_few<W: fmt::Write>(f: &mut fmt::Formatter<W>, bytes: &[u8]) -> fmt::Result
    requires { length bytes.now ≤ 32 }
    ensures { WritesOnOk W.write_str_gives f.old result (hexed bytes.now) f.new }
{
    let mut digits = [0u8; 64];
    put_digits(bytes, &mut digits);
    f.write_str(from_utf8(&digits[..2 * bytes.len()]).unwrap())
}

// Bytes that are shown in hex.
#[derive(Clone, Copy, Debug, PartialEq, Eq)]
pub struct Hex<'a>(pub &'a [u8]);

impl fmt::Display for Hex<'_> {
    ghost output = { λ h. Some (hexed h.0.now) };

    // A write of many digits costs little more than a write of one.
    fn fmt<W: fmt::Write>(&self, f: &mut fmt::Formatter<W>) -> fmt::Result {
        let (runs, rest) = self.0.as_chunks::<32>();
        for run in runs {
            write_few(f, run)?;
        }
        write_few(f, rest)
    }
}

// Adds bytes in hex to a text.
#[tactic(auto, using(crate::proofs::Law::reads_back))]
pub fn push_hex(out: &mut String, bytes: &[u8]) -> Result<(), AllocError>
    ensures added { OnOk result (string_bytes out.new ≡ string_bytes out.old ++ hexed bytes.now) }
    ensures law { ReadsBack }
{
    let hex = Hex(bytes);
    write!(out, "{hex}")
}
