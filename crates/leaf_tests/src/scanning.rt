// The scan up to a call, and values put where there is room.
ghost use Rattle.std.specs.Prelude.{◌≡◌, ◌≤◌, ◌++◌, length, IfSome, MatchBool};
ghost use Rattle.machine.specs.Scan.{step as step_of};
ghost use Rattle.scan.specs.Texts.{left_of, right_of, SameArea, Become};
ghost use Rattle.scan.specs.Meeting.{Goes};

use code::Code;
use machine::Rule;
use meter::Meter;
use refusal::Refusal;
use scan::{Roll, ScanTexts, follow, rule_at_front};
use signs::Signs;

// The most steps that a test makes.
const STEPS: usize = 2000;

// A step, or none at the end of the text and at a call that is to be made.
pub(crate) fn step<C: Code>(
    signs: &Signs<C>,
    texts: &mut ScanTexts<'_>,
    roll: &mut Roll,
    meter: &mut Meter,
) -> Option<Result<(), Refusal>>
    requires reserved { meter.old.bounds.roll ≤ roll.old.limit }
    ensures goes { IfSome result (λ r. Goes (step_of C.Code.meaning) texts.old texts.new roll.old roll.new meter.old meter.new r) }
    ensures reserved { meter.new.bounds.roll ≤ roll.new.limit }
{
    if texts.right().is_empty() {
        return None;
    }
    let rule = rule_at_front(signs, roll.is_inside(), texts.right());
    if rule == Rule::Close {
        return None;
    }
    Some(follow(signs, rule, texts, roll, meter))
}

// All steps up to the end of the text or to a call that is to be made. The answer says how many.
pub(crate) fn run<C: Code>(
    signs: &Signs<C>,
    texts: &mut ScanTexts<'_>,
    roll: &mut Roll,
    meter: &mut Meter,
) -> Result<usize, Refusal>
    requires reserved { meter.old.bounds.roll ≤ roll.old.limit }
    ensures reserved { meter.new.bounds.roll ≤ roll.new.limit }
{
    for steps in 0..STEPS {
        match step(signs, texts, roll, meter) {
            None => return Ok(steps),
            Some(done) => done?,
        }
    }
    Ok(STEPS)
}

// Does a parameter of the innermost call read so?
pub(crate) fn parameter_is(roll: &Roll, texts: &ScanTexts<'_>, n: usize, text: &[u8]) -> bool {
    roll.parameters(texts).get(n) == text
}

// Do the texts read so?
pub(crate) fn texts_are(texts: &ScanTexts<'_>, left: &[u8], right: &[u8]) -> bool {
    texts.left() == left && texts.right() == right
}

// A value goes behind the left text in an area of that size, if there is room.
pub(crate) fn put_behind_left(texts: &mut ScanTexts<'_>, size: usize, value: &[u8]) -> bool
    requires { size ≡ length texts.old.area.now }
    ensures value { MatchBool result (Become texts.old texts.new (left_of texts.old ++ value.now) (right_of texts.old)) (texts.new ≡ texts.old) }
    ensures size { size ≡ length texts.new.area.now }
{
    let used = texts.left().len() + texts.right().len();
    if value.len() > size - used {
        return false;
    }
    texts.put_behind_left(value);
    true
}

// A value goes before the right text, likewise.
pub(crate) fn put_before_right(texts: &mut ScanTexts<'_>, size: usize, value: &[u8]) -> bool
    requires { size ≡ length texts.old.area.now }
    ensures value { MatchBool result (Become texts.old texts.new (left_of texts.old) (value.now ++ right_of texts.old)) (texts.new ≡ texts.old) }
    ensures size { size ≡ length texts.new.area.now }
{
    let used = texts.left().len() + texts.right().len();
    if value.len() > size - used {
        return false;
    }
    texts.put_before_right(value);
    true
}
