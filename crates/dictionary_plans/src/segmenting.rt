// Strings that are segmented: SS, and SC, whose value is how many places are marked.
ghost use Rattle.std.specs.Prelude.{◌≡◌, ◌≤◌, true, [], length, pos};
ghost use Rattle.machine.specs.Texts.{highest_mark};
ghost use Rattle.machine.specs.Numbers.{written};
ghost use Rattle.machine.specs.Strings.{segment_string, segmented};
ghost use Rattle.dictionary.specs.Finding.{RowAt};
ghost use Rattle.dictionary.specs.Strings.{place_of, string_in};
ghost use Rattle.plan.specs.Plans.{Plans};

use crate::marking::{MOST_MARKS, count_substrings, highest_in, mark_substrings};
use code::Code;
use dictionary::StringPlace;
use library::Reader;
use plan::{Effect, Plan, find_string};
use refusal::Refusal;
use value::{Sources, Value};

// The highest number of a mark in the whole body of a string.
fn highest_of<C: Code, R: Reader>(sources: &Sources<'_, C, R>, string: StringPlace) -> u8
    requires { RowAt sources.now.dictionary.now (place_of string) }
    ensures highest { result ≡ highest_mark C.Code.meaning (string_in string sources.now.store.now).body }
    ensures within { result ≤ 62 }
{
    highest_in(
        sources.signs,
        sources.dictionary.body(sources.store, string),
    )
}

// Are there mark numbers enough for the substrings?
fn is_numbered<C: Code, R: Reader>(sources: &Sources<'_, C, R>, string: StringPlace) -> bool
    requires { RowAt sources.now.dictionary.now (place_of string) }
    ensures { result ≡ (segmented C.Code.meaning sources.now.parameters.now (string_in string sources.now.store.now)).numbered }
{
    highest_of(sources, string) + count_substrings(sources.parameters) <= MOST_MARKS
}

// How many places are marked where there are numbers enough. What is left of the string is marked in the scratch.
fn count_marked<C: Code, R: Reader>(
    sources: &Sources<'_, C, R>,
    scratch: &mut [u8],
    string: StringPlace,
) -> i64
    requires standing { RowAt sources.now.dictionary.now (place_of string) }
    requires numbered { (segmented C.Code.meaning sources.now.parameters.now (string_in string sources.now.store.now)).numbered ≡ true }
    requires small { length sources.now.store.now ≤ 32768 }
    requires fits { length sources.now.store.now ≤ length scratch.old }
    ensures places { result ≡ pos (segmented C.Code.meaning sources.now.parameters.now (string_in string sources.now.store.now)).places }
    ensures scratch { length scratch.new ≡ length scratch.old }
{
    let rest = sources.dictionary.rest(sources.store, string);
    let text = &mut scratch[..rest.len()];
    text.copy_from_slice(rest);
    let highest = highest_of(sources, string);
    mark_substrings(sources.signs, sources.parameters, highest, text) as i64
}

// SS: the substrings are marked, and there is no value.
pub(crate) fn segment_string<C: Code, R: Reader>(
    sources: &Sources<'_, C, R>,
) -> Result<Plan, Refusal>
    ensures { Plans sources.now (λ w. segment_string C.Code.meaning sources.now.parameters.now w (λ places. [])) result }
{
    let string = find_string(sources, 0)?;
    let numbered = is_numbered(sources, string);
    Ok(Plan::of_effect(Effect::Segment { string, numbered }))
}

// SC: the value is how many places are marked. Where numbers run out it is never read.
pub(crate) fn count_places<C: Code, R: Reader>(
    sources: &Sources<'_, C, R>,
    scratch: &mut [u8],
) -> Result<Plan, Refusal>
    requires small { length sources.now.store.now ≤ 32768 }
    requires fits { length sources.now.store.now ≤ length scratch.old }
    ensures plans { Plans sources.now (λ w. segment_string C.Code.meaning sources.now.parameters.now w (λ places. written C.Code.meaning (pos places))) result }
    ensures scratch { length scratch.new ≡ length scratch.old }
{
    let string = find_string(sources, 0)?;
    let numbered = is_numbered(sources, string);
    let places = if numbered {
        count_marked(sources, scratch, string)
    } else {
        0
    };
    Ok(Plan {
        value: Value::Number(places),
        effect: Effect::Segment { string, numbered },
    })
}
