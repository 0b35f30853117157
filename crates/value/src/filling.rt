// A string's value: its text with parameters and a created number in the place of its marks.
ghost use Rattle.std.specs.Prelude.{◌≡◌, length};
ghost use Rattle.machine.specs.Functions.{for_byte, filled, four_digits};
ghost use Rattle.value.specs.Texts.{capped, created_text};

use crate::putting::put;
use code::Code;
use scan::Parameters;
use signs::Signs;
use std::slice;

// A created number.
fn four_digits<C: Code>(signs: &Signs<C>, number: usize) -> [u8; 4]
    ensures { result ≡ four_digits C.Code.meaning number }
{
    [
        signs.digits[number / 1000 % 10],
        signs.digits[number / 100 % 10],
        signs.digits[number / 10 % 10],
        signs.digits[number % 10],
    ]
}

// What stands for a byte.
fn for_byte<'a, 'p: 'a, C: Code>(
    signs: &Signs<C>,
    parameters: &Parameters<'p>,
    created: &'a [u8],
    byte: &'a u8,
) -> &'a [u8]
    ensures { result.now ≡ for_byte C.Code.meaning parameters.now created.now byte.now }
{
    if *byte == signs.creation_mark {
        return created;
    }
    match signs.code.mark_number(*byte) {
        Some(number) => parameters.get(usize::from(number).saturating_sub(1)),
        None => slice::from_ref(byte),
    }
}

fn length_with<C: Code>(
    signs: &Signs<C>,
    parameters: &Parameters<'_>,
    created: &[u8],
    text: &[u8],
) -> usize
    ensures { result ≡ capped (length (filled C.Code.meaning parameters.now created.now text.now)) }
{
    let mut len: usize = 0;
    for byte in text {
        len = len.saturating_add(for_byte(signs, parameters, created, byte).len());
    }
    len
}

fn write_with<C: Code>(
    signs: &Signs<C>,
    parameters: &Parameters<'_>,
    created: &[u8],
    text: &[u8],
    out: &mut [u8],
)
    requires { length out.old ≡ length (filled C.Code.meaning parameters.now created.now text.now) }
    ensures { out.new ≡ filled C.Code.meaning parameters.now created.now text.now }
{
    let mut at = 0;
    for byte in text {
        at = put(out, at, for_byte(signs, parameters, created, byte));
    }
}

pub(crate) fn filled_length<C: Code>(
    signs: &Signs<C>,
    parameters: &Parameters<'_>,
    created: Option<usize>,
    text: &[u8],
) -> usize
    ensures { result ≡ capped (length (filled C.Code.meaning parameters.now (created_text C.Code.meaning created) text.now)) }
{
    match created {
        Some(number) => length_with(signs, parameters, &four_digits(signs, number), text),
        None => length_with(signs, parameters, &[], text),
    }
}

pub(crate) fn write_filled<C: Code>(
    signs: &Signs<C>,
    parameters: &Parameters<'_>,
    created: Option<usize>,
    text: &[u8],
    out: &mut [u8],
)
    requires { length out.old ≡ length (filled C.Code.meaning parameters.now (created_text C.Code.meaning created) text.now) }
    ensures { out.new ≡ filled C.Code.meaning parameters.now (created_text C.Code.meaning created) text.now }
{
    match created {
        Some(number) => write_with(signs, parameters, &four_digits(signs, number), text, out),
        None => write_with(signs, parameters, &[], text, out),
    }
}
