// NAMES.
ghost use Rattle.std.specs.Prelude.{◌≡◌, map};
ghost use Rattle.std.specs.List.{list_all};
ghost use Rattle.library.specs.Meaning.{NamedString};
ghost use Rattle.machine.specs.Texts.{proper_name};
ghost use Rattle.machine.specs.Libraries.{string_names};
ghost use Rattle.value.specs.Texts.{names_of};
ghost use Rattle.plan.specs.Plans.{Plans};

use crate::asking::is_program_name;
use code::Code;
use library::{Reader, Source, each_string, find_program, view_program};
use plan::Plan;
use proper_texts::is_proper_name;
use refusal::Refusal;
use signs::Signs;
use value::{Sources, Value};

// Are the names of strings all characters?
fn are_proper_names<C: Code, S: Source>(signs: &Signs<C>, strings: &S) -> bool
    ensures { result ≡ list_all (proper_name C.Code.meaning) (map (λ (s : NamedString). s.name) (S.Source.strings strings.now)) }
{
    for string in each_string(strings) {
        if !is_proper_name(signs, string.name) {
            return false;
        }
    }
    true
}

// Are the names of a program's strings all characters? Past the last program there are none.
fn has_proper_names<C: Code, R: Reader>(sources: &Sources<'_, C, R>, program: usize) -> bool
    ensures { result ≡ list_all (proper_name C.Code.meaning) (names_of (R.Reader.meaning sources.now.library.now) program) }
{
    match view_program(sources.library, program) {
        Some(view) => are_proper_names(sources.signs, &view),
        None => true,
    }
}

// The names of the strings of the program of the name 1.
pub fn plan_names<C: Code, R: Reader>(sources: &Sources<'_, C, R>) -> Result<Plan, Refusal>
    ensures { Plans sources.now (string_names C.Code.meaning sources.now.parameters.now) result }
{
    if !is_program_name(sources) {
        return Err(Refusal::ProgramNameLength);
    }
    let Some(program) = find_program(sources.library, sources.parameters.get(0)) else {
        return Err(Refusal::ProgramAbsent);
    };
    if !has_proper_names(sources, program) {
        return Err(Refusal::ForeignText);
    }
    Ok(Plan::of_value(Value::Names { program }))
}
