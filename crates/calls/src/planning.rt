// What a built-in comes to.
ghost use Rattle.std.specs.Prelude.{◌≡◌, ◌≢◌, ◌≤◌, length};
ghost use Rattle.calls.specs.Outcomes.{outcome_for, library_outcome};
ghost use Rattle.calls.specs.Planned.{PlansIn};
ghost use Rattle.machine.specs.Functions.{on_others};
ghost use Rattle.plan.specs.Plans.{Plans};

use choice_plans::{plan_comparison, plan_name_defined};
use class_plans::plan_class;
use code::Code;
use dictionary::Dictionary;
use dictionary_plans::plan_dictionary;
use library::Reader;
use library_plans::{plan_delete, plan_names, plan_program_defined, plan_store};
use machine::{BuiltIn, LibraryFunction, OtherFunction};
use number_plans::plan_arithmetic;
use plan::Plan;
use refusal::Refusal;
use scan::Parameters;
use selection_plans::plan_selection;
use signs::Signs;
use text_plans::{plan_break, plan_print, plan_text};
use value::Sources;

// The plan of a function on the library, other than COPY.
fn plan_library<C: Code, R: Reader>(
    sources: &Sources<'_, C, R>,
    function: LibraryFunction,
) -> Result<Plan, Refusal>
    requires { function ≢ LibraryFunction.Copy }
    ensures { Plans sources.now (library_outcome C.Code.meaning function sources.now.parameters.now) result }
{
    match function {
        LibraryFunction::Store => plan_store(sources),
        LibraryFunction::Delete => plan_delete(sources),
        LibraryFunction::Copy => unreachable!(),
        LibraryFunction::Names => plan_names(sources),
        LibraryFunction::Pdf => plan_program_defined(sources),
    }
}

// The plan of NDF, PS or BREAK.
fn plan_other<C: Code, R: Reader>(
    sources: &Sources<'_, C, R>,
    function: OtherFunction,
) -> Result<Plan, Refusal>
    ensures { Plans sources.now (on_others C.Code.meaning function sources.now.parameters.now) result }
{
    match function {
        OtherFunction::Ndf => Ok(plan_name_defined(sources)),
        OtherFunction::Ps => Ok(plan_print(sources)),
        OtherFunction::Break => Ok(plan_break(sources)),
    }
}

// The plan of a built-in, other than COPY.
fn plan_built_in<C: Code, R: Reader>(
    sources: &Sources<'_, C, R>,
    scratch: &mut [u8],
    function: BuiltIn,
) -> Result<Plan, Refusal>
    requires plannable { function ≢ BuiltIn.Library LibraryFunction.Copy }
    requires small { length sources.now.store.now ≤ 32768 }
    requires scratch { length sources.now.store.now ≤ length scratch.old }
    ensures plans { Plans sources.now (outcome_for C.Code.meaning function sources.now.parameters.now) result }
    ensures scratch { length scratch.new ≡ length scratch.old }
{
    match function {
        BuiltIn::Dictionary(function) => plan_dictionary(sources, scratch, function),
        BuiltIn::Selection(function) => plan_selection(sources, function),
        BuiltIn::Text(function) => plan_text(sources, function),
        BuiltIn::Class(function) => plan_class(sources, function),
        BuiltIn::Arithmetic(function) => plan_arithmetic(sources, function),
        BuiltIn::Comparison(function) => plan_comparison(sources, function),
        BuiltIn::Library(function) => plan_library(sources, function),
        BuiltIn::Other(function) => plan_other(sources, function),
    }
}

// The plan of a built-in, other than COPY, from the parts of a world.
pub(crate) fn plan_from<'a, C: Code, R: Reader>(
    signs: &'a Signs<C>,
    parameters: &'a Parameters<'a>,
    dictionary: &'a Dictionary,
    store: &'a [u8],
    library: &'a R,
    scratch: &mut [u8],
    function: BuiltIn,
) -> Result<Plan, Refusal>
    requires plannable { function ≢ BuiltIn.Library LibraryFunction.Copy }
    requires whole { dictionary.now.used ≤ length store.now }
    requires small { length store.now ≤ 32768 }
    requires scratch { length store.now ≤ length scratch.old }
    ensures plans { PlansIn C.Code.meaning parameters.now dictionary.now store.now (R.Reader.meaning library.now) (outcome_for C.Code.meaning function parameters.now) result }
    ensures scratch { length scratch.new ≡ length scratch.old }
{
    let sources = Sources {
        signs,
        parameters,
        dictionary,
        store,
        library,
    };
    plan_built_in(&sources, scratch, function)
}
