// The call of a function, from its name to its end.
ghost use Rattle.std.specs.Prelude.{◌≡◌, ◌≤◌, length, take};
ghost use Rattle.calls.specs.Ends.{Ends, MayCall};
ghost use Rattle.machine.specs.Scan.{called_name, make_call as make_call_of};
ghost use Rattle.scan.specs.Making.{Fits, GoesIn};
ghost use Rattle.scan.specs.Standing.{state_in};
ghost use Rattle.world.specs.Standing.{world_in, SameMemory};

use crate::ending::end_call;
use crate::retrieving::ready_call;
use code::Code;
use library::Keeper;
use meter::Meter;
use refusal::Refusal;
use scan::{Roll, ScanTexts};
use signs::Signs;
use world::World;

// The innermost call is made. Its name is not kept.
fn make<C: Code, K: Keeper>(
    world: &mut World<'_, K>,
    signs: &Signs<C>,
    texts: &mut ScanTexts<'_>,
    roll: &mut Roll,
    meter: &mut Meter,
) -> Result<(), Refusal>
    requires fits { Fits texts.old roll.old meter.old }
    requires ready { MayCall K.Reader world.old meter.old.bounds }
    ensures ends { let s = state_in texts.old roll.old (world_in K.Reader world.old) in Ends K.Reader (called_name s) (make_call_of C.Code.meaning s) world.new texts.old texts.new roll.old roll.new meter.old meter.new result }
    ensures memory { SameMemory K.Reader world.old world.new }
{
    let name = roll.name(texts);
    let parameters = roll.parameters(texts);
    let ready = ready_call(world, signs, name, &parameters, meter)?;
    end_call(world, signs, ready, texts, roll, meter)
}

// The called name is kept.
fn keep_name(area: &mut [u8], name: &[u8])
    requires { length name.now ≤ length area.old }
    ensures kept { take (length name.now) area.new ≡ name.now }
    ensures size { length area.new ≡ length area.old }
{
    area[..name.len()].copy_from_slice(name);
}

// The innermost call is made; its `>` is dropped already. Where it is refused, its name is kept.
pub fn make_call<C: Code, K: Keeper>(
    world: &mut World<'_, K>,
    signs: &Signs<C>,
    texts: &mut ScanTexts<'_>,
    roll: &mut Roll,
    meter: &mut Meter,
) -> Result<(), Refusal>
    requires fits { Fits texts.old roll.old meter.old }
    requires ready { MayCall K.Reader world.old meter.old.bounds }
    ensures goes { GoesIn (make_call_of C.Code.meaning) (world_in K.Reader world.old) (world_in K.Reader world.new) texts.old texts.new roll.old roll.new meter.old meter.new result }
    ensures memory { SameMemory K.Reader world.old world.new }
{
    let made = make(world, signs, texts, roll, meter);
    match made {
        Ok(()) => world.called = 0,
        Err(_) => {
            let name = roll.name(texts);
            let area = &mut *world.called_name;
            keep_name(area, name);
            world.called = name.len();
        }
    }
    made
}
