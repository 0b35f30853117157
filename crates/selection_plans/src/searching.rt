// A text that is sought in a string: ISC and SCN.
ghost use Rattle.std.specs.Prelude.{◌≡◌, ◌&&◌};
ghost use Rattle.machine.specs.Texts.{not_empty, begins};
ghost use Rattle.machine.specs.Selection.{initial_scan, character_scan};
ghost use Rattle.plan.specs.Plans.{Plans};

use crate::passing::pass;
use area::{begins, find};
use code::Code;
use library::Reader;
use plan::{Plan, find_string};
use refusal::Refusal;
use value::{Sources, Value};

// Does a text begin with that one? No text begins with an empty one.
fn begins_with(text: &[u8], sought: &[u8]) -> bool
    ensures { result ≡ not_empty sought.now && begins sought.now text.now }
{
    !sought.is_empty() && begins(text, sought)
}

// Parameter 3 if the string 2 begins with parameter 1, and its pointer moves past that; else parameter 4.
pub(crate) fn initial_scan<C: Code, R: Reader>(sources: &Sources<'_, C, R>) -> Result<Plan, Refusal>
    ensures { Plans sources.now (initial_scan C.Code.meaning sources.now.parameters.now) result }
{
    let string = find_string(sources, 1)?;
    let rest = sources.dictionary.rest(sources.store, string);
    let sought = sources.parameters.get(0);
    if begins_with(rest, sought) {
        Ok(pass(Value::Parameter(2), 1, string, sought.len()))
    } else {
        Ok(Plan::of_value(Value::Parameter(3)))
    }
}

// What stands in the string 2 before the first parameter 1, and its pointer moves past that; else parameter 3.
pub(crate) fn character_scan<C: Code, R: Reader>(
    sources: &Sources<'_, C, R>,
) -> Result<Plan, Refusal>
    ensures { Plans sources.now (character_scan C.Code.meaning sources.now.parameters.now) result }
{
    let string = find_string(sources, 1)?;
    let rest = sources.dictionary.rest(sources.store, string);
    let sought = sources.parameters.get(0);
    match find(rest, sought) {
        Some(place) => Ok(pass(
            Value::Passed { string, len: place },
            1,
            string,
            place + sought.len(),
        )),
        None => Ok(Plan::of_value(Value::Parameter(2))),
    }
}
