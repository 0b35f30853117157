// The end of a call: its last question, its value and its effect.
ghost use Rattle.std.specs.Prelude.{◌≡◌};
ghost use Rattle.calls.specs.Ends.{Ends};
ghost use Rattle.calls.specs.ReadyCalls.{ready_of, MayEnd};
ghost use Rattle.delivery.specs.Deliveries.{value_of};
ghost use Rattle.machine.specs.Texts.{Text};
ghost use Rattle.machine.specs.World.{World as MachineWorld, calling};
ghost use Rattle.machine.specs.Scan.{parameters as parameters_of, deliver};
ghost use Rattle.plan.specs.Effects.{placed_by};
ghost use Rattle.scan.specs.Making.{Fits};
ghost use Rattle.scan.specs.Standing.{state_in};
ghost use Rattle.world.specs.Standing.{world_in, SameMemory};

use crate::ready_call::ReadyCall;
use code::Code;
use delivery::{Delivery, Environment};
use library::Keeper;
use meter::Meter;
use performing::perform;
use plan::{Effect, Plan};
use refusal::Refusal;
use scan::{Roll, ScanTexts};
use signs::Signs;
use world::World;

// Does the value become the right text?
fn breaks(effect: Effect) -> bool
    ensures { (t : Text) → placed_by effect t ≡ value_of result t }
{
    match effect {
        Effect::Break => true,
        _ => false,
    }
}

// What a value is taken from.
fn environment<'s, K: Keeper>(world: &'s World<'_, K>) -> Environment<'s, K>
    ensures dictionary { result.dictionary.now ≡ world.now.dictionary.now }
    ensures store { result.store.now ≡ world.now.store.now }
    ensures library { result.library.now ≡ world.now.library.now }
{
    Environment {
        dictionary: world.dictionary,
        store: world.store,
        library: world.library,
    }
}

// The value is written before the effect changes what it is taken from; the text of the call goes after that, since the
// effect's names and texts stand in it.
pub(crate) fn end_call<C: Code, K: Keeper>(
    world: &mut World<'_, K>,
    signs: &Signs<C>,
    ready: ReadyCall,
    texts: &mut ScanTexts<'_>,
    roll: &mut Roll,
    meter: &mut Meter,
) -> Result<(), Refusal>
    requires fits { Fits texts.old roll.old meter.old }
    requires may_end { (w : MachineWorld) → MayEnd K.Reader C.Code.meaning (parameters_of (state_in texts.old roll.old w)) world.old meter.old.created ready }
    ensures ends { (name : Text) (w : MachineWorld) → let s = state_in texts.old roll.old w in Ends K.Reader name (deliver s (ready_of K.Reader C.Code.meaning (parameters_of s) world.old (calling name (world_in K.Reader world.old)) ready)) world.new texts.old texts.new roll.old roll.new meter.old meter.new result }
    ensures memory { SameMemory K.Reader world.old world.new }
{
    let Plan { value, effect } = ready.plan;
    let delivery = Delivery::of_call(texts, roll, breaks(effect));
    delivery.write_value(signs, &environment(world), value, texts, roll, meter)?;
    perform(world, signs, &delivery.parameters(texts, roll), effect);
    delivery.close_call(texts, roll);
    if ready.numbered {
        meter.take_number();
    }
    Ok(())
}
