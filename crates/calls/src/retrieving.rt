// The function of a name.
ghost use Rattle.calls.specs.Ends.{MayCall};
ghost use Rattle.calls.specs.ReadyCalls.{Readies};
ghost use Rattle.calls.specs.Retrieving.{Means, Retrieves};
ghost use Rattle.machine.specs.Functions.{function as function_of};
ghost use Rattle.world.specs.Standing.{SameMemory};

use crate::applying::ready_built_in;
use crate::filling::ready_string;
use crate::ready_call::ReadyCall;
use code::Code;
use dictionary::Meaning;
use fetching::retrieve_named;
use library::Keeper;
use meter::Meter;
use refusal::Refusal;
use scan::Parameters;
use signs::Signs;
use world::World;

// What a name means.
fn look_up<C: Code, K: Keeper>(
    world: &World<'_, K>,
    signs: &Signs<C>,
    name: &[u8],
) -> Option<Meaning>
    ensures { Means C.Code.meaning name.now world.now result }
{
    world.dictionary.look_up(signs, world.store, name)
}

// What a name means, once a name that means nothing was sought as a program.
fn retrieve<C: Code, K: Keeper>(
    world: &mut World<'_, K>,
    signs: &Signs<C>,
    name: &[u8],
    meter: &mut Meter,
) -> Result<Option<Meaning>, Refusal>
    requires ready { MayCall K.Reader world.old meter.old.bounds }
    ensures retrieves { Retrieves K.Reader C.Code.meaning name.now world.old world.new meter.old meter.new result }
    ensures memory { SameMemory K.Reader world.old world.new }
{
    if let Some(meaning) = look_up(world, signs, name) {
        return Ok(Some(meaning));
    }
    retrieve_named(world, signs, name, meter)?;
    Ok(look_up(world, signs, name))
}

// The call of a name with its parameters, up to its last question.
pub(crate) fn ready_call<C: Code, K: Keeper>(
    world: &mut World<'_, K>,
    signs: &Signs<C>,
    name: &[u8],
    parameters: &Parameters<'_>,
    meter: &mut Meter,
) -> Result<ReadyCall, Refusal>
    requires ready { MayCall K.Reader world.old meter.old.bounds }
    ensures readies { Readies K.Reader C.Code.meaning parameters.now (function_of C.Code.meaning name.now parameters.now) world.old world.new meter.old meter.new result }
    ensures memory { SameMemory K.Reader world.old world.new }
{
    match retrieve(world, signs, name, meter)? {
        Some(Meaning::BuiltIn(function)) => {
            ready_built_in(world, signs, parameters, function, meter)
        }
        Some(Meaning::String(called)) => ready_string(world, signs, parameters, called, meter),
        None => Err(Refusal::FunctionUndefined),
    }
}
