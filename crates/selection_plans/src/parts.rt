// Parts of a string, each up to a place that ends it: CP and CS.
ghost use Rattle.std.specs.Prelude.{◌<◌, length, IfSome};
ghost use Rattle.machine.specs.World.{parameter};
ghost use Rattle.machine.specs.Dictionary.{rest_of};
ghost use Rattle.machine.specs.Selection.{up_to, call_parameter, call_segment};
ghost use Rattle.dictionary.specs.Finding.{Standing};
ghost use Rattle.dictionary.specs.Strings.{place_of, string_in};
ghost use Rattle.plan.specs.Plans.{Plans, Planned};

use crate::passing::pass;
use code::Code;
use dictionary::StringPlace;
use library::Reader;
use plan::{Plan, find_string};
use refusal::Refusal;
use selection::{segment_place, zero_level};
use value::{Sources, Value};

// What stands before a place in the string 1, and its pointer moves past the place; all of it where there is no such place.
fn up_to<C: Code, R: Reader>(
    sources: &Sources<'_, C, R>,
    string: StringPlace,
    place: Option<usize>,
) -> Plan
    requires string { Standing sources.now.dictionary.now sources.now.store.now (parameter 0 sources.now.parameters.now) (place_of string) }
    requires place { IfSome place (λ k. k < length (rest_of (string_in string sources.now.store.now))) }
    ensures { Planned sources.now (λ w. up_to C.Code.meaning (parameter 0 sources.now.parameters.now) (string_in string sources.now.store.now) w place) result }
{
    match place {
        Some(len) => pass(Value::Passed { string, len }, 0, string, len + 1),
        None => {
            let len = sources.dictionary.rest(sources.store, string).len();
            pass(Value::Passed { string, len }, 0, string, len)
        }
    }
}

// The next parameter of a call that stands in the string 1.
pub(crate) fn call_parameter<C: Code, R: Reader>(
    sources: &Sources<'_, C, R>,
) -> Result<Plan, Refusal>
    ensures { Plans sources.now (call_parameter C.Code.meaning sources.now.parameters.now) result }
{
    let string = find_string(sources, 0)?;
    let rest = sources.dictionary.rest(sources.store, string);
    Ok(up_to(sources, string, zero_level(sources.signs, rest)))
}

// What stands in the string 1 before the next segment mark.
pub(crate) fn call_segment<C: Code, R: Reader>(sources: &Sources<'_, C, R>) -> Result<Plan, Refusal>
    ensures { Plans sources.now (call_segment C.Code.meaning sources.now.parameters.now) result }
{
    let string = find_string(sources, 0)?;
    let rest = sources.dictionary.rest(sources.store, string);
    Ok(up_to(sources, string, segment_place(sources.signs, rest)))
}
