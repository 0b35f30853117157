// The questions before an effect.
ghost use Rattle.std.specs.Prelude.{◌≡◌, IfOk};
ghost use Rattle.machine.specs.Texts.{Text};
ghost use Rattle.machine.specs.World.{Value, Plan, calling, ready, asking};
ghost use Rattle.plan.specs.Effects.{May, performed, asks_of};
ghost use Rattle.scan.specs.Meeting.{Meets};
ghost use Rattle.world.specs.Standing.{world_in, Ready, HasRoomFor};

use crate::answering::answer;
use code::Code;
use library::Keeper;
use meter::Meter;
use plan::Effect;
use refusal::Refusal;
use scan::Parameters;
use signs::Signs;
use world::World;

// Is there room for what an effect is to leave? The answer is that of the machine, whatever the value and the name of the call
// are; Ok is for an effect that fits the memory.
pub fn ask<C: Code, K: Keeper>(
    world: &World<'_, K>,
    signs: &Signs<C>,
    parameters: &Parameters<'_>,
    effect: Effect,
    meter: &mut Meter,
) -> Result<(), Refusal>
    requires may { May C.Code.meaning parameters.now world.now.dictionary.now world.now.store.now (K.Reader.meaning world.now.library.now) effect }
    requires ready { Ready K.Reader world.now meter.old.bounds }
    ensures meets { (n : Text) (v : Value) → let w = calling n (world_in K.Reader world.now) in let p : Plan = record { value = v; after = performed C.Code.meaning parameters.now world.now.store.now effect w; asks = asks_of effect } in Meets meter.old meter.new result (ready w p) w (asking w p (asks_of effect)) }
    ensures room { IfOk result (λ _. HasRoomFor world.now (asks_of effect) (performed C.Code.meaning parameters.now world.now.store.now effect (world_in K.Reader world.now))) }
{
    answer(world, signs, parameters, effect, meter)
}
