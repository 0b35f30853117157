// The rules of the scan but the call's.
ghost use Rattle.std.specs.Prelude.{◌≡◌, ◌≢◌, ◌≤◌, ◌++◌, take, drop, length, IfErr};
ghost use Rattle.machine.specs.Scan.{entering, by_rule, ending};
ghost use Rattle.scan.specs.Texts.{left_of, right_of, Become};
ghost use Rattle.scan.specs.Fronts.{width};
ghost use Rattle.scan.specs.Meeting.{Goes};

use crate::matching::find_match;
use crate::roll::Roll;
use crate::texts::ScanTexts;
use code::Code;
use machine::{Begins, RollEntry, Rule};
use meter::{Meter, Question};
use refusal::Refusal;
use signs::Signs;

// An entry is made behind the left text, and bytes at the front of the right text are dropped.
fn enter(
    begins: Begins,
    dropped: usize,
    texts: &mut ScanTexts<'_>,
    roll: &mut Roll,
    meter: &mut Meter,
) -> Result<(), Refusal>
    requires front { dropped ≤ length (right_of texts.old) }
    requires reserved { meter.old.bounds.roll ≤ roll.old.limit }
    ensures goes { Goes (entering begins dropped) texts.old texts.new roll.old roll.new meter.old meter.new result }
    ensures undone { IfErr result (λ _. (texts.new ≡ texts.old) × (roll.new ≡ roll.old) × (meter.new ≡ meter.old)) }
{
    meter.put(Question::Roll, roll.entries.len() + 1)?;
    roll.entries.push_reserved(RollEntry {
        begins,
        at: texts.left().len(),
    });
    texts.drop_front(dropped);
    Ok(())
}

// `@` is dropped, and the byte after it, if any, moves left.
fn escape(texts: &mut ScanTexts<'_>)
    requires { 1 ≤ length (right_of texts.old) }
    ensures { Become texts.old texts.new (left_of texts.old ++ take 1 (drop 1 (right_of texts.old))) (drop 1 (drop 1 (right_of texts.old))) }
{
    texts.drop_front(1);
    if !texts.right().is_empty() {
        texts.move_front(1);
    }
}

// `<` is dropped with its match, and all between moves left.
fn unbracket<C: Code>(
    signs: &Signs<C>,
    texts: &mut ScanTexts<'_>,
    roll: &Roll,
    meter: &Meter,
) -> Result<(), Refusal>
    requires { 1 ≤ length (right_of texts.old) }
    ensures goes { Goes (by_rule C.Code.meaning Rule.Bracket) texts.old texts.new roll.now roll.now meter.now meter.now result }
    ensures undone { IfErr result (λ _. texts.new ≡ texts.old) }
{
    let between = find_match(signs, &texts.right()[1..]).ok_or(Refusal::Unmatched)?;
    texts.drop_front(1);
    texts.move_front(between);
    texts.drop_front(1);
    Ok(())
}

// A rule, other than the call, where the right text has a front for it.
pub fn follow<C: Code>(
    signs: &Signs<C>,
    rule: Rule,
    texts: &mut ScanTexts<'_>,
    roll: &mut Roll,
    meter: &mut Meter,
) -> Result<(), Refusal>
    requires front { width rule ≤ length (right_of texts.old) }
    requires no_call { rule ≢ Rule.Close }
    requires reserved { meter.old.bounds.roll ≤ roll.old.limit }
    ensures goes { Goes (by_rule C.Code.meaning rule) texts.old texts.new roll.old roll.new meter.old meter.new result }
    ensures undone { IfErr result (λ _. (texts.new ≡ texts.old) × (roll.new ≡ roll.old) × (meter.new ≡ meter.old)) }
{
    match rule {
        Rule::EndOfLine => texts.drop_front(1),
        Rule::Escape => escape(texts),
        Rule::OpenPassive => return enter(Begins::PassiveCall, 3, texts, roll, meter),
        Rule::OpenActive => return enter(Begins::ActiveCall, 2, texts, roll, meter),
        Rule::Bracket => return unbracket(signs, texts, roll, meter),
        Rule::Separator => return enter(Begins::Parameter, 1, texts, roll, meter),
        Rule::Close => unreachable!(),
        Rule::Other => texts.move_front(1),
    }
    Ok(())
}

// The end of the text, which stands outside of any call.
pub fn end_of_text(roll: &Roll) -> Result<(), Refusal>
    ensures { (texts : _) (meter : _) → Goes ending texts texts roll.now roll.now meter meter result }
{
    if roll.is_inside() {
        return Err(Refusal::CallOpen);
    }
    Ok(())
}
