// The call of a string.
ghost use Rattle.calls.specs.ReadyCalls.{Readies};
ghost use Rattle.machine.specs.Dictionary.{string};
ghost use Rattle.machine.specs.Functions.{perform as perform_of};
ghost use Rattle.dictionary.specs.Finding.{RowAt};
ghost use Rattle.dictionary.specs.Strings.{place_of, string_in};

use crate::ready_call::ReadyCall;
use code::Code;
use dictionary::StringPlace;
use library::Keeper;
use meter::Meter;
use plan::Plan;
use refusal::Refusal;
use scan::Parameters;
use selection::has_creation_mark;
use signs::Signs;
use value::Value;
use world::World;

// What is left of the string, filled with the parameters. The created number is taken only at the end of the call.
pub(crate) fn ready_string<C: Code, K: Keeper>(
    world: &World<'_, K>,
    signs: &Signs<C>,
    parameters: &Parameters<'_>,
    called: StringPlace,
    meter: &mut Meter,
) -> Result<ReadyCall, Refusal>
    requires { RowAt world.now.dictionary.now (place_of called) }
    ensures { Readies K.Reader C.Code.meaning parameters.now (perform_of C.Code.meaning (Some (string (string_in called world.now.store.now))) parameters.now) world.now world.now meter.old meter.new result }
{
    let numbered = has_creation_mark(signs, world.dictionary.rest(world.store, called));
    let created = if numbered {
        Some(meter.want_number()?)
    } else {
        None
    };
    Ok(ReadyCall {
        plan: Plan::of_value(Value::Filled {
            string: called,
            created,
        }),
        numbered,
    })
}
