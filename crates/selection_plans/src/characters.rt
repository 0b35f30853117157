// Characters that are called or skipped: CC, CN and SN.
ghost use Rattle.std.specs.Prelude.{◌≡◌};
ghost use Rattle.machine.specs.World.{parameter, p1};
ghost use Rattle.machine.specs.Numbers.{read_integer};
ghost use Rattle.machine.specs.Selection.{if_count, call_characters, skip_characters};
ghost use Rattle.plan.specs.Plans.{Plans, ComesTo};

use crate::passing::pass;
use code::Code;
use library::Reader;
use number::read_count;
use plan::{Plan, find_string};
use refusal::Refusal;
use selection::bytes_to_pass;
use value::{Sources, Value};

// The count that parameter 1 is.
pub(crate) fn count<C: Code, R: Reader>(sources: &Sources<'_, C, R>) -> Result<usize, Refusal>
    ensures { ComesTo sources.now (if_count (read_integer C.Code.meaning (p1 sources.now.parameters.now))) (λ n. n) result }
{
    read_count(sources.signs, sources.parameters.get(0))
}

// So many characters of the string that a parameter names, and its pointer moves past them.
pub(crate) fn call_characters<C: Code, R: Reader>(
    sources: &Sources<'_, C, R>,
    count: usize,
    name: usize,
) -> Result<Plan, Refusal>
    ensures { Plans sources.now (call_characters C.Code.meaning count (parameter name sources.now.parameters.now)) result }
{
    let string = find_string(sources, name)?;
    let rest = sources.dictionary.rest(sources.store, string);
    let len = bytes_to_pass(sources.signs, count, rest);
    Ok(pass(Value::Passed { string, len }, name, string, len))
}

// The pointer of the string that a parameter names moves past so many characters.
pub(crate) fn skip_characters<C: Code, R: Reader>(
    sources: &Sources<'_, C, R>,
    count: usize,
    name: usize,
) -> Result<Plan, Refusal>
    ensures { Plans sources.now (skip_characters C.Code.meaning count (parameter name sources.now.parameters.now)) result }
{
    let string = find_string(sources, name)?;
    let rest = sources.dictionary.rest(sources.store, string);
    let len = bytes_to_pass(sources.signs, count, rest);
    Ok(pass(Value::Nothing, name, string, len))
}
