// Strings that are appended to, copied and marked for creation.
ghost use Rattle.std.specs.Prelude.{◌≡◌};
ghost use Rattle.machine.specs.Strings.{append_string, copy_function, mark_for_creation};
ghost use Rattle.plan.specs.Plans.{Plans};

use code::Code;
use dictionary::Meaning;
use library::Reader;
use plan::{Effect, Plan, find_string};
use refusal::Refusal;
use value::Sources;

// AP: an absent name is defined.
pub(crate) fn append_string<C: Code, R: Reader>(
    sources: &Sources<'_, C, R>,
) -> Result<Plan, Refusal>
    ensures { Plans sources.now (append_string C.Code.meaning sources.now.parameters.now) result }
{
    let name = sources.parameters.get(0);
    match sources
        .dictionary
        .look_up(sources.signs, sources.store, name)
    {
        Some(Meaning::String(string)) => Ok(Plan::of_effect(Effect::Append(string))),
        Some(Meaning::BuiltIn(_)) => Err(Refusal::NotAString),
        None => Ok(Plan::of_effect(Effect::DefineString)),
    }
}

// CF: what parameter 2 means is copied.
pub(crate) fn copy_function<C: Code, R: Reader>(
    sources: &Sources<'_, C, R>,
) -> Result<Plan, Refusal>
    ensures { Plans sources.now (copy_function C.Code.meaning sources.now.parameters.now) result }
{
    let name = sources.parameters.get(1);
    match sources
        .dictionary
        .look_up(sources.signs, sources.store, name)
    {
        Some(Meaning::String(string)) => Ok(Plan::of_effect(Effect::CopyString(string))),
        Some(Meaning::BuiltIn(function)) => Ok(Plan::of_effect(Effect::CopyBuiltIn(function))),
        None => Err(Refusal::NameUndefined),
    }
}

// CR: matches in a string become creation marks.
pub(crate) fn mark_for_creation<C: Code, R: Reader>(
    sources: &Sources<'_, C, R>,
) -> Result<Plan, Refusal>
    ensures { Plans sources.now (mark_for_creation C.Code.meaning sources.now.parameters.now) result }
{
    let string = find_string(sources, 0)?;
    Ok(Plan::of_effect(Effect::MarkCreation(string)))
}
