// Plain text, which moves in runs.
ghost use Rattle.std.specs.Prelude.{◌≤◌, drop, length, MatchBool, IsOkAnd};
ghost use Rattle.scan.specs.Running.{ByLast, ByAnother, PlainRun, Passes};

use crate::front::rule_at_front;
use crate::roll::Roll;
use crate::texts::ScanTexts;
use code::Code;
use machine::Rule;
use meter::{Meter, Question};
use refusal::Refusal;
use signs::Signs;

// Does a rule other than the last concern a text from a place on?
fn is_sign_at<C: Code>(signs: &Signs<C>, inside: bool, text: &[u8], at: usize) -> bool
    requires { at ≤ length text.now }
    ensures { MatchBool result (ByAnother C.Code.meaning inside (drop at text.now)) (ByLast C.Code.meaning inside (drop at text.now)) }
{
    rule_at_front(signs, inside, &text[at..]) != Rule::Other
}

// How many bytes at the front of the right text only the last rule concerns: each of them moves left in a step.
pub fn plain_run<C: Code>(signs: &Signs<C>, inside: bool, right: &[u8]) -> usize
    ensures { PlainRun C.Code.meaning inside right.now result }
{
    (0..right.len())
        .find(|at| is_sign_at(signs, inside, right, *at))
        .unwrap_or(right.len())
}

// The plain run at the front of the right text moves left in one go, as far as steps are left; each of its bytes is a step.
// The answer is how many steps are made then.
pub fn pass_plain<C: Code>(
    signs: &Signs<C>,
    texts: &mut ScanTexts<'_>,
    roll: &Roll,
    meter: &mut Meter,
    steps: usize,
) -> Result<usize, Refusal>
    ensures { IsOkAnd result (λ made. Passes C.Code.meaning texts.old texts.new roll.now meter.old meter.new steps made) }
{
    let run = plain_run(signs, roll.is_inside(), texts.right());
    let run = run.min(meter.bounds.steps.saturating_sub(steps));
    if run > 0 {
        meter.put(Question::Step, steps + run)?;
        texts.move_front(run);
    }
    Ok(steps + run)
}
