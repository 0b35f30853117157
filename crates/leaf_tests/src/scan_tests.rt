// The scan in an area that its source fills, rolls of 0 and of 256 entries, and values that fill the gap.
ghost use Rattle.std.specs.Prelude.{◌≡◌};

use crate::{parameter_is, put_before_right, put_behind_left, run, texts_are};
use code::Ascii;
use machine::{Limits, RollEntry};
use meter::Meter;
use refusal::Refusal;
use scan::{Roll, ScanTexts, end_of_text, pass_plain};
use signs::read_signs;
use std::alloc::Global;
use std::process::Abort;
use std::test::Fail;

fn meter_of(roll: usize) -> Meter
    ensures { result.bounds.roll ≡ roll }
{
    let limits = Limits {
        names: 0,
        roll,
        store: 0,
        scan: 0,
        print: 0,
    };
    Meter::start(limits, 1000, 0)
}

// A source, the limit of the roll, what comes of the scan up to a call, the two texts then, and the end of the text.
type Scanned = (
    &'static [u8],
    usize,
    Result<usize, Refusal>,
    &'static [u8],
    &'static [u8],
    Result<(), Refusal>,
);

fn sources() -> [Scanned; 17] {
    [
        (b"", 0, Ok(0), b"", b"", Ok(())),
        (b"abcdefgh", 0, Ok(8), b"abcdefgh", b"", Ok(())),
        (b"<a;b>", 0, Ok(1), b"a;b", b"", Ok(())),
        (b"a>b;", 0, Ok(4), b"a>b;", b"", Ok(())),
        (b"@@@<", 0, Ok(2), b"@<", b"", Ok(())),
        (b"@", 0, Ok(1), b"", b"", Ok(())),
        (b"a@", 0, Ok(2), b"a", b"", Ok(())),
        (b"###", 0, Ok(3), b"###", b"", Ok(())),
        (b"<a<b>@>c>d", 0, Ok(2), b"a<b>@>cd", b"", Ok(())),
        (b"<a\nb>\nc@\n", 0, Ok(4), b"a\nbc\n", b"", Ok(())),
        (b"x<a@", 0, Err(Refusal::Unmatched), b"x", b"<a@", Ok(())),
        (b"#<", 0, Err(Refusal::RollFull), b"", b"#<", Ok(())),
        (b"##<", 0, Err(Refusal::RollFull), b"", b"##<", Ok(())),
        (b"#<", 1, Ok(1), b"", b"", Err(Refusal::CallOpen)),
        (
            b"#<a;",
            1,
            Err(Refusal::RollFull),
            b"a",
            b";",
            Err(Refusal::CallOpen),
        ),
        (
            b"a#<AD;2;<3>>b",
            3,
            Ok(8),
            b"aAD23",
            b">b",
            Err(Refusal::CallOpen),
        ),
        (b"###<X>", 1, Ok(3), b"#X", b">", Err(Refusal::CallOpen)),
    ]
}

fn assert_scanned(rt: &impl Abort, heap: Global, row: Scanned) -> Result<(), Fail> {
    let signs = read_signs(Ascii);
    let (source, limit, steps, left, right, end) = row;
    let mut area = vec![in heap; 0; source.len()]?;
    let mut roll = Roll::new(heap, limit)?;
    let mut meter = meter_of(limit);
    let mut texts = ScanTexts::load(area.as_mut_slice(), source);
    assert_eq!(rt;
        run(&signs, &mut texts, &mut roll, &mut meter),
        steps,
        "{source:?}"
    );
    assert!(rt; texts_are(&texts, left, right), "{source:?}");
    assert_eq!(rt; end_of_text(&roll), end, "{source:?}");
    Ok(())
}

#[test]
fn sources_fill_the_area(rt: HostRuntime) -> Result<(), Fail> {
    for row in sources() {
        assert_scanned(&rt, rt.alloc(), row)?;
    }
    Ok(())
}

#[test]
fn a_call_is_read_off_the_roll(rt: HostRuntime) -> Result<(), Fail> {
    let signs = read_signs(Ascii);
    let mut area = [0; 18];
    let mut roll = Roll::new(rt.alloc(), 5)?;
    let mut meter = meter_of(5);
    let mut texts = ScanTexts::load(&mut area, b"a#<F;x##<AD;;23>>b");
    assert_eq!(rt; run(&signs, &mut texts, &mut roll, &mut meter), Ok(12));
    assert_eq!(rt; texts.left(), b"aFxAD23".as_slice());
    assert_eq!(rt; roll.name(&texts), b"AD".as_slice());
    assert_eq!(rt; roll.start(), 3);
    assert!(rt; !roll.is_active());
    assert!(rt; parameter_is(&roll, &texts, 0, b""));
    assert!(rt; parameter_is(&roll, &texts, 1, b"23"));
    assert!(rt; parameter_is(&roll, &texts, 2, b""));
    roll.close();
    assert_eq!(rt; roll.name(&texts), b"F".as_slice());
    assert_eq!(rt; roll.start(), 1);
    assert!(rt; roll.is_active());
    roll.clear();
    assert_eq!(rt; end_of_text(&roll), Ok(()));
    Ok(())
}

#[test]
fn a_roll_is_filled(rt: HostRuntime) -> Result<(), Fail> {
    let signs = read_signs(Ascii);
    let mut source = Vec::new(rt.alloc());
    for _ in 0..257 {
        source.extend_from_slice(b"#<")?;
    }
    let mut area = vec![in rt.alloc(); 0; source.len()]?;
    let mut roll = Roll::new(rt.alloc(), 256)?;
    let mut meter = meter_of(256);
    let mut texts = ScanTexts::load(area.as_mut_slice(), source.as_slice());
    assert_eq!(rt;
        run(&signs, &mut texts, &mut roll, &mut meter),
        Err(Refusal::RollFull)
    );
    assert_eq!(rt; texts.right(), b"#<".as_slice());
    assert_eq!(rt; meter.needs.roll, 256);
    Ok(())
}

#[test]
fn values_fill_the_gap(rt: HostRuntime) {
    let mut area = [0; 10];
    let mut texts = ScanTexts::load(&mut area, b"abc");
    assert!(rt; put_behind_left(&mut texts, 10, b"wx"));
    assert!(rt; !put_behind_left(&mut texts, 10, b"123456"));
    assert!(rt; !put_before_right(&mut texts, 10, b"123456"));
    assert!(rt; put_before_right(&mut texts, 10, b"12"));
    assert!(rt; put_behind_left(&mut texts, 10, b"yz7"));
    assert!(rt; put_behind_left(&mut texts, 10, b""));
    assert!(rt; !put_before_right(&mut texts, 10, b"0"));
    assert_eq!(rt; texts.left(), b"wxyz7".as_slice());
    assert_eq!(rt; texts.right(), b"12abc".as_slice());
}

#[test]
fn plain_text_goes_as_far_as_steps_are_left(rt: HostRuntime) -> Result<(), Fail> {
    let signs = read_signs(Ascii);
    let mut area = [0; 6];
    let roll = Roll::new(rt.alloc(), 0)?;
    let mut meter = meter_of(0);
    let mut texts = ScanTexts::load(&mut area, b"abcd@e");
    assert_eq!(rt;
        pass_plain(&signs, &mut texts, &roll, &mut meter, 998),
        Ok(1000)
    );
    assert_eq!(rt; texts.left(), b"ab".as_slice());
    assert_eq!(rt;
        pass_plain(&signs, &mut texts, &roll, &mut meter, 1000),
        Ok(1000)
    );
    assert_eq!(rt; pass_plain(&signs, &mut texts, &roll, &mut meter, 5), Ok(7));
    assert_eq!(rt; texts.left(), b"abcd".as_slice());
    assert_eq!(rt; texts.right(), b"@e".as_slice());
    assert_eq!(rt; meter.needs.steps, 1000);
    Ok(())
}
