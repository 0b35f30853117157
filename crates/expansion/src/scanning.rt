// The scan of a whole text.
ghost use Rattle.std.specs.Prelude.{◌≡◌, ◌≤◌, length};
ghost use Rattle.machine.specs.Scan.{step as step_of, scanning};
ghost use Rattle.scan.specs.Texts.{right_of};
ghost use Rattle.scan.specs.Making.{Fits, GoesIn};
ghost use Rattle.world.specs.Standing.{world_in, SameMemory};
ghost use Rattle.calls.specs.Ends.{MayCall};

use calls::make_call;
use code::Code;
use library::Keeper;
use machine::Rule;
use meter::{Meter, Question};
use refusal::Refusal;
use scan::{Roll, ScanTexts, end_of_text, follow, pass_plain, rule_at_front};
use signs::Signs;
use world::World;

// A step, where the right text is not empty.
fn step<C: Code, K: Keeper>(
    signs: &Signs<C>,
    world: &mut World<'_, K>,
    texts: &mut ScanTexts<'_>,
    roll: &mut Roll,
    meter: &mut Meter,
) -> Result<(), Refusal>
    requires some { 1 ≤ length (right_of texts.old) }
    requires fits { Fits texts.old roll.old meter.old }
    requires ready { MayCall K.Reader world.old meter.old.bounds }
    ensures goes { GoesIn (step_of C.Code.meaning) (world_in K.Reader world.old) (world_in K.Reader world.new) texts.old texts.new roll.old roll.new meter.old meter.new result }
    ensures memory { SameMemory K.Reader world.old world.new }
{
    match rule_at_front(signs, roll.is_inside(), texts.right()) {
        Rule::Close => {
            texts.drop_front(1);
            make_call(world, signs, texts, roll, meter)
        }
        rule => follow(signs, rule, texts, roll, meter),
    }
}

// The scan, to the end of the text or to a refusal.
pub fn scan_text<C: Code, K: Keeper>(
    signs: &Signs<C>,
    world: &mut World<'_, K>,
    texts: &mut ScanTexts<'_>,
    roll: &mut Roll,
    meter: &mut Meter,
) -> Result<(), Refusal>
    requires fits { Fits texts.old roll.old meter.old }
    requires ready { MayCall K.Reader world.old meter.old.bounds }
    requires allowed { meter.old.bounds.steps ≤ 1000000 }
    ensures goes { GoesIn (scanning C.Code.meaning 1000000 0) (world_in K.Reader world.old) (world_in K.Reader world.new) texts.old texts.new roll.old roll.new meter.old meter.new result }
    ensures memory { SameMemory K.Reader world.old world.new }
{
    let mut steps = 0usize;
    loop {
        steps = pass_plain(signs, texts, roll, meter, steps)?;
        if texts.right().is_empty() {
            return end_of_text(roll);
        }
        meter.put(Question::Step, steps + 1)?;
        step(signs, world, texts, roll, meter)?;
        steps += 1;
    }
}
