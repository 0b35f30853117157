// The functions that define a class.
ghost use Rattle.std.specs.Prelude.{ℕ, ◌≤◌, Bool, MatchResult, length};
ghost use Rattle.machine.specs.World.{p1, p2};
ghost use Rattle.machine.specs.Dictionary.{class_of, with_class};
ghost use Rattle.machine.specs.Classes.{all_but, define_class, the_bytes};
ghost use Rattle.dictionary.specs.Meant.{classes_in};
ghost use Rattle.plan.specs.Plans.{Plans, Refused};

use code::Code;
use library::Reader;
use plan::{Effect, Plan};
use refusal::Refusal;
use value::Sources;

// The most classes that there are at a time.
const CLASSES: usize = 16;

// Are there few enough classes with one of the name 1? Else its definition is refused.
fn ask_room<C: Code, R: Reader>(sources: &Sources<'_, C, R>) -> Result<(), Refusal>
    ensures { (test : ℕ → Bool) → MatchResult result
        (λ _. length (with_class (p1 sources.now.parameters.now) (class_of test) (classes_in sources.now.dictionary.now sources.now.store.now)) ≤ 16)
        (Refused sources.now (define_class sources.now.parameters.now test)) }
{
    let name = sources.parameters.get(0);
    if sources.dictionary.classes_after(sources.store, name) > CLASSES {
        return Err(Refusal::TooManyClasses);
    }
    Ok(())
}

// DCL: the name 1 becomes the class of the bytes of 2.
pub(crate) fn plan_class_of_bytes<C: Code, R: Reader>(
    sources: &Sources<'_, C, R>,
) -> Result<Plan, Refusal>
    ensures { Plans sources.now (define_class sources.now.parameters.now (the_bytes (p2 sources.now.parameters.now))) result }
{
    ask_room(sources)?;
    Ok(Plan::of_effect(Effect::DefineClass))
}

// DNCL: the name 1 becomes the class of the characters and the end of line, but those of 2.
pub(crate) fn plan_class_of_others<C: Code, R: Reader>(
    sources: &Sources<'_, C, R>,
) -> Result<Plan, Refusal>
    ensures { Plans sources.now (define_class sources.now.parameters.now (all_but C.Code.meaning (p2 sources.now.parameters.now))) result }
{
    ask_room(sources)?;
    Ok(Plan::of_effect(Effect::DefineClassOfOthers))
}
