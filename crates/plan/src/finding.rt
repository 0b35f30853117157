// What a built-in's names stand for in the dictionary.
ghost use Rattle.std.specs.Prelude.{◌≡◌, IfOk};
ghost use Rattle.machine.specs.World.{parameter, of_string};
ghost use Rattle.machine.specs.Dictionary.{in_classes};
ghost use Rattle.machine.specs.Classes.{if_class};
ghost use Rattle.dictionary.specs.Finding.{Standing};
ghost use Rattle.dictionary.specs.Strings.{place_of, string_in};
ghost use Rattle.plan.specs.Plans.{ComesTo};

use code::Code;
use dictionary::{Meaning, StringPlace};
use library::Reader;
use refusal::Refusal;
use value::Sources;

// The string that a parameter names.
pub fn find_string<C: Code, R: Reader>(
    sources: &Sources<'_, C, R>,
    n: usize,
) -> Result<StringPlace, Refusal>
    ensures string { ComesTo sources.now (of_string C.Code.meaning (parameter n sources.now.parameters.now)) (λ s. string_in s sources.now.store.now) result }
    ensures place { IfOk result (λ s. Standing sources.now.dictionary.now sources.now.store.now (parameter n sources.now.parameters.now) (place_of s)) }
{
    let name = sources.parameters.get(n);
    match sources
        .dictionary
        .look_up(sources.signs, sources.store, name)
    {
        Some(Meaning::String(string)) => Ok(string),
        Some(Meaning::BuiltIn(_)) => Err(Refusal::NotAString),
        None => Err(Refusal::NameUndefined),
    }
}

// The members of the class that a parameter names.
pub fn find_class<'a, C: Code, R: Reader>(
    sources: &Sources<'a, C, R>,
    n: usize,
) -> Result<&'a [bool; 256], Refusal>
    ensures { ComesTo sources.now (λ w. if_class (in_classes (parameter n sources.now.parameters.now) w.dictionary.classes) w) (λ members. members.now) result }
{
    let name = sources.parameters.get(n);
    sources
        .dictionary
        .class(sources.store, name)
        .ok_or(Refusal::ClassUndefined)
}
