// The questions before any effect.
ghost use Rattle.plan.specs.Effects.{May, performed, asks_of};
ghost use Rattle.world.specs.Standing.{world_in, Ready};
ghost use Rattle.asking.specs.Answers.{Answers};

use crate::effects::{ask_append, ask_class, ask_definition, ask_lines};
use code::Code;
use library::Keeper;
use meter::Meter;
use plan::Effect;
use refusal::Refusal;
use scan::Parameters;
use signs::Signs;
use world::World;

// Is there room for what an effect is to leave?
pub(crate) fn answer<C: Code, K: Keeper>(
    world: &World<'_, K>,
    signs: &Signs<C>,
    parameters: &Parameters<'_>,
    effect: Effect,
    meter: &mut Meter,
) -> Result<(), Refusal>
    requires may { May C.Code.meaning parameters.now world.now.dictionary.now world.now.store.now (K.Reader.meaning world.now.library.now) effect }
    requires ready { Ready K.Reader world.now meter.old.bounds }
    ensures { Answers meter.old meter.new result (asks_of effect) (performed C.Code.meaning parameters.now world.now.store.now effect (world_in K.Reader world.now)) }
{
    match effect {
        Effect::DefineString => ask_definition(world, parameters, parameters.get(1).len(), meter),
        Effect::CopyString(string) => {
            let rest = world.dictionary.rest(world.store, string);
            ask_definition(world, parameters, rest.len(), meter)
        }
        Effect::CopyBuiltIn(_) => ask_definition(world, parameters, 0, meter),
        Effect::Append(string) => ask_append(world, parameters, string, meter),
        Effect::DefineClass => ask_class(world, parameters, meter),
        Effect::DefineClassOfOthers => ask_class(world, parameters, meter),
        Effect::Print => ask_lines(world, signs, parameters, meter),
        _ => Ok(()),
    }
}
