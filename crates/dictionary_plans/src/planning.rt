// The plan of a call of a function on the dictionary.
ghost use Rattle.std.specs.Prelude.{◌≡◌, ◌≤◌, length};
ghost use Rattle.machine.specs.Strings.{on_dictionary};
ghost use Rattle.plan.specs.Plans.{Plans};

use crate::segmenting::{count_places, segment_string};
use crate::strings::{append_string, copy_function, mark_for_creation};
use code::Code;
use library::Reader;
use machine::DictionaryFunction;
use plan::{Effect, Plan};
use refusal::Refusal;
use value::Sources;

// What the call comes to. The scratch is as long as the store at least: marks are counted there.
pub fn plan_dictionary<C: Code, R: Reader>(
    sources: &Sources<'_, C, R>,
    scratch: &mut [u8],
    function: DictionaryFunction,
) -> Result<Plan, Refusal>
    requires small { length sources.now.store.now ≤ 32768 }
    requires fits { length sources.now.store.now ≤ length scratch.old }
    ensures plans { Plans sources.now (on_dictionary C.Code.meaning function sources.now.parameters.now) result }
    ensures scratch { length scratch.new ≡ length scratch.old }
{
    match function {
        DictionaryFunction::Ds => Ok(Plan::of_effect(Effect::DefineString)),
        DictionaryFunction::Ap => append_string(sources),
        DictionaryFunction::Es => Ok(Plan::of_effect(Effect::EraseNames)),
        DictionaryFunction::Cf => copy_function(sources),
        DictionaryFunction::Ss => segment_string(sources),
        DictionaryFunction::Sc => count_places(sources, scratch),
        DictionaryFunction::Cr => mark_for_creation(sources),
    }
}
