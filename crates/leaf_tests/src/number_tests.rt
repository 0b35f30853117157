// Decimal integers: what texts read as, what comes of two of them, and how values are written. The tables are Python's.
use crate::in_ebcdic;
use built_ins::find_built_in;
use code::{Ascii, Code, Ebcdic};
use machine::{ArithmeticFunction, BuiltIn};
use number::{
    Numeral, absolute, add, divide, multiply, read_count, read_integer, read_one, read_two,
    remainder, subtract, write_integer, written_length,
};
use refusal::Refusal;
use signs::{Signs, read_signs};
use std::alloc::{AllocError, Global};
use std::process::Abort;
use std::test::Fail;

// A text, with `.` for the empty one, and what it reads as: is a sign written, how many digits, and the value of up to 18.
const READINGS: [&str; 42] = [
    ". false;0;0",
    "0 false;1;0",
    "1 false;1;1",
    "9 false;1;9",
    "00 false;2;0",
    "007 false;3;7",
    "12345 false;5;12345",
    "-0 true;1;0",
    "+0 true;1;0",
    "-00 true;2;0",
    "+1 true;1;1",
    "-1 true;1;-1",
    "-7 true;1;-7",
    "+ None",
    "- None",
    "1a None",
    "a1 None",
    "a None",
    "1- None",
    "1+ None",
    "--1 None",
    "++1 None",
    "+-1 None",
    "-+1 None",
    "1.5 None",
    "1,000 None",
    "999999999 false;9;999999999",
    "1000000000 false;10;1000000000",
    "-999999999 true;9;-999999999",
    "123456789012345 false;15;123456789012345",
    "-999999999999999 true;15;-999999999999999",
    "1000000000000000 false;16;1000000000000000",
    "999999999999999999 false;18;999999999999999999",
    "-999999999999999999 true;18;-999999999999999999",
    "+000000000000000001 true;18;1",
    "1000000000000000000 false;19;None",
    "-1000000000000000000 true;19;None",
    "0000000000000000001 false;19;None",
    "9999999999999999999 false;19;None",
    "18446744073709551616 false;20;None",
    "+18446744073709551615 true;20;None",
    "99999999999999999999999999 false;26;None",
];

// A word of a table, where a dot stands for the empty text.
fn word(word: &str) -> &[u8] {
    if word == "." { b"" } else { word.as_bytes() }
}

fn show_numeral(heap: Global, read: Option<Numeral>) -> Result<String, AllocError> {
    let Some(numeral) = read else {
        return format!(in heap; "None");
    };
    let Numeral {
        signed,
        digits,
        value,
    } = numeral;
    match value {
        Some(value) => format!(in heap; "{signed};{digits};{value}"),
        None => format!(in heap; "{signed};{digits};None"),
    }
}

#[test]
fn texts_are_read(rt: HostRuntime) -> Result<(), Fail> {
    let ascii = read_signs(Ascii);
    let ebcdic = read_signs(Ebcdic);
    for line in READINGS {
        let mut words = line.split_whitespace();
        let text = word(words.next().ok_or("a text")?);
        let shown = words.next().ok_or("a numeral")?;
        let other = in_ebcdic(rt.alloc(), text)?;
        let read = show_numeral(rt.alloc(), read_integer(&ascii, text))?;
        assert_eq!(rt; read.as_str(), shown, "{line}");
        let read = show_numeral(rt.alloc(), read_integer(&ebcdic, other.as_slice()))?;
        assert_eq!(rt; read.as_str(), shown, "{line}");
    }
    Ok(())
}

// A function of two numbers, and how it is asked for them.
fn work<C: Code>(
    signs: &Signs<C>,
    function: ArithmeticFunction,
    x: &[u8],
    y: &[u8],
) -> Result<i64, Refusal> {
    match function {
        ArithmeticFunction::Ad => {
            let (x, y) = read_two(signs, x, y, 15, 15)?;
            Ok(add(x, y))
        }
        ArithmeticFunction::Su => {
            let (x, y) = read_two(signs, x, y, 15, 15)?;
            Ok(subtract(x, y))
        }
        ArithmeticFunction::Mu => {
            let (x, y) = read_two(signs, x, y, 9, 9)?;
            Ok(multiply(x, y))
        }
        ArithmeticFunction::Dv => {
            let (x, y) = read_two(signs, x, y, 18, 15)?;
            divide(x, y)
        }
        ArithmeticFunction::Dvr => {
            let (x, y) = read_two(signs, x, y, 18, 15)?;
            remainder(x, y)
        }
        ArithmeticFunction::Abs => Ok(absolute(read_one(signs, x, 15)?)),
    }
}

// The text of a value.
fn shown<'a, C: Code>(signs: &Signs<C>, value: i64, out: &'a mut [u8; 20]) -> &'a [u8] {
    let length = written_length(value);
    write_integer(signs, value, out);
    &out[..length]
}

// A function, two texts, and what is written or why it is refused.
const WORKED: [&str; 92] = [
    "AD 2 3 5",
    "AD . . 0",
    "AD . -4 -4",
    "AD 999999999999999 1 0",
    "AD 999999999999999 999999999999999 999999999999998",
    "AD -999999999999999 -999999999999999 -999999999999998",
    "AD -999999999999999 -1 0",
    "AD 999999999999999 -999999999999999 0",
    "AD -1 999999999999999 999999999999998",
    "AD 1 -999999999999999 -999999999999998",
    "AD 500000000000000 500000000000001 1",
    "AD -0 0 0",
    "AD 0000000000000000 1 TooManyDigits",
    "AD 1 1000000000000000 TooManyDigits",
    "AD x 1 NoInteger",
    "AD 1 x NoInteger",
    "AD 1111111111111111 x NoInteger",
    "SU 2 3 -1",
    "SU . . 0",
    "SU . -4 4",
    "SU 999999999999999 1 999999999999998",
    "SU 999999999999999 999999999999999 0",
    "SU -999999999999999 -999999999999999 0",
    "SU -999999999999999 -1 -999999999999998",
    "SU 999999999999999 -999999999999999 999999999999998",
    "SU -1 999999999999999 0",
    "SU 1 -999999999999999 0",
    "SU 500000000000000 500000000000001 -1",
    "SU -0 0 0",
    "SU 0000000000000000 1 TooManyDigits",
    "SU 1 1000000000000000 TooManyDigits",
    "SU x 1 NoInteger",
    "SU 1 x NoInteger",
    "SU 1111111111111111 x NoInteger",
    "MU 12 -3 -36",
    "MU -12 -3 36",
    "MU 999999999 999999999 999999998000000001",
    "MU -999999999 999999999 -999999998000000001",
    "MU 0 -5 0",
    "MU -0 -0 0",
    "MU 1000000000 1 TooManyDigits",
    "MU 000000001 7 7",
    "DV 7 2 3",
    "DV -7 2 -3",
    "DV 7 -2 -3",
    "DV -7 -2 3",
    "DV 6 3 2",
    "DV 0 -3 0",
    "DV 1 2 0",
    "DV -1 2 0",
    "DV 5 0 NoQuotient",
    "DV 5 . NoQuotient",
    "DV . 5 0",
    "DV 999999999999999999 1 NoQuotient",
    "DV 999999999999999999 999 NoQuotient",
    "DV 999999999999999999 1000 999999999999999",
    "DV -999999999999999999 1000 -999999999999999",
    "DV -999999999999999999 999999999999999 -1000",
    "DV 999999999999999999 1001 999000999000999",
    "DV 1000000000000000 1 NoQuotient",
    "DV 999999999999999 1 999999999999999",
    "DV -999999999999999 1 -999999999999999",
    "DV 999999999999999 -1 -999999999999999",
    "DV 100000000000000000 100 NoQuotient",
    "DV 100000000000000000 101 990099009900990",
    "DV 0000000000000000000 1 TooManyDigits",
    "DV 1 0000000000000000 TooManyDigits",
    "DVR 7 2 1",
    "DVR -7 2 -1",
    "DVR 7 -2 1",
    "DVR -7 -2 -1",
    "DVR 6 3 0",
    "DVR 0 -3 0",
    "DVR 1 2 1",
    "DVR -1 2 -1",
    "DVR 5 0 NoQuotient",
    "DVR 5 . NoQuotient",
    "DVR . 5 0",
    "DVR 999999999999999999 1 NoQuotient",
    "DVR 999999999999999999 999 NoQuotient",
    "DVR 999999999999999999 1000 999",
    "DVR -999999999999999999 1000 -999",
    "DVR -999999999999999999 999999999999999 -999",
    "DVR 999999999999999999 1001 0",
    "DVR 1000000000000000 1 NoQuotient",
    "DVR 999999999999999 1 0",
    "DVR -999999999999999 1 0",
    "DVR 999999999999999 -1 0",
    "DVR 100000000000000000 100 NoQuotient",
    "DVR 100000000000000000 101 10",
    "DVR 0000000000000000000 1 TooManyDigits",
    "DVR 1 0000000000000000 TooManyDigits",
];

fn assert_worked(rt: &impl Abort, heap: Global, line: &str) -> Result<(), Fail> {
    let ascii = read_signs(Ascii);
    let ebcdic = read_signs(Ebcdic);
    let mut words = line.split_whitespace();
    let name = words.next().ok_or("a function")?;
    let x = word(words.next().ok_or("a text")?);
    let y = word(words.next().ok_or("a second text")?);
    let text = words.next().ok_or("a value")?;
    let Some(BuiltIn::Arithmetic(function)) = find_built_in(&ascii, name.as_bytes()) else {
        return Err(Fail::new("no function"));
    };
    let other_x = in_ebcdic(heap, x)?;
    let other_y = in_ebcdic(heap, y)?;
    let value = work(&ascii, function, x, y);
    assert_eq!(rt;
        work(&ebcdic, function, other_x.as_slice(), other_y.as_slice()),
        value,
        "{line}"
    );
    match value {
        Ok(value) => {
            let other = in_ebcdic(heap, text.as_bytes())?;
            assert_eq!(rt;
                shown(&ascii, value, &mut [0; 20]),
                text.as_bytes(),
                "{line}"
            );
            assert_eq!(rt;
                shown(&ebcdic, value, &mut [0; 20]),
                other.as_slice(),
                "{line}"
            );
        }
        Err(refusal) => {
            let refused = format!(in heap; "{refusal:?}")?;
            assert_eq!(rt; refused.as_str(), text, "{line}");
        }
    }
    Ok(())
}

#[test]
fn sums_products_and_quotients(rt: HostRuntime) -> Result<(), Fail> {
    for line in WORKED {
        assert_worked(&rt, rt.alloc(), line)?;
    }
    Ok(())
}

#[test]
fn values_are_written(rt: HostRuntime) -> Result<(), Fail> {
    let ascii = read_signs(Ascii);
    let ebcdic = read_signs(Ebcdic);
    let written: [(i64, &[u8]); 16] = [
        (0, b"0"),
        (1, b"1"),
        (-1, b"-1"),
        (9, b"9"),
        (10, b"10"),
        (-10, b"-10"),
        (99, b"99"),
        (100, b"100"),
        (101, b"101"),
        (999999999999999, b"999999999999999"),
        (-999999999999999, b"-999999999999999"),
        (1000000000000000, b"1000000000000000"),
        (999999999999999999, b"999999999999999999"),
        (-999999999999999999, b"-999999999999999999"),
        (123456789012345678, b"123456789012345678"),
        (9223372036854775807, b"9223372036854775807"),
    ];
    for (value, text) in written {
        let other = in_ebcdic(rt.alloc(), text)?;
        assert_eq!(rt; shown(&ascii, value, &mut [0; 20]), text);
        assert_eq!(rt; shown(&ebcdic, value, &mut [0; 20]), other.as_slice());
    }
    Ok(())
}

#[test]
fn sizes_and_counts(rt: HostRuntime) {
    let signs = read_signs(Ascii);
    let size = ArithmeticFunction::Abs;
    assert_eq!(rt;
        work(&signs, size, b"-999999999999999", b""),
        Ok(999_999_999_999_999)
    );
    assert_eq!(rt; work(&signs, size, b"-0", b""), Ok(0));
    assert_eq!(rt;
        work(&signs, size, b"0000000000000001", b""),
        Err(Refusal::TooManyDigits)
    );
    let counts: [(&[u8], Result<usize, Refusal>); 9] = [
        (b"", Ok(0)),
        (b"000000007", Ok(7)),
        (b"999999999", Ok(999_999_999)),
        (b"0000000001", Err(Refusal::TooManyDigits)),
        (b"+1", Err(Refusal::SignedInteger)),
        (b"-0", Err(Refusal::SignedInteger)),
        (b"-0000000001", Err(Refusal::SignedInteger)),
        (b"-", Err(Refusal::NoInteger)),
        (b"1x", Err(Refusal::NoInteger)),
    ];
    for (text, count) in counts {
        assert_eq!(rt; read_count(&signs, text), count, "{text:?}");
    }
}
