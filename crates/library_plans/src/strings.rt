// The strings that a call names behind its first parameter.
ghost use Rattle.std.specs.Prelude.{◌≡◌, ◌+◌, ◌<◌, length, drop, is_some, MatchOption};
ghost use Rattle.std.specs.List.{list_all};
ghost use Rattle.library.specs.Keeping.{strings_bytes};
ghost use Rattle.machine.specs.Texts.{Text};
ghost use Rattle.machine.specs.World.{parameter};
ghost use Rattle.machine.specs.Libraries.{is_string, whole_body};
ghost use Rattle.library_plans.specs.Named.{meant, program_made};

use code::Code;
use dictionary::Meaning;
use library::Reader;
use value::Sources;

// Has a parameter a meaning, as a name?
fn is_defined<C: Code, R: Reader>(sources: &Sources<'_, C, R>, n: usize) -> bool
    ensures { result ≡ is_some (meant sources.now (parameter n sources.now.parameters.now)) }
{
    let name = sources.parameters.get(n);
    sources
        .dictionary
        .look_up(sources.signs, sources.store, name)
        .is_some()
}

// Does a parameter name a string?
fn is_string<C: Code, R: Reader>(sources: &Sources<'_, C, R>, n: usize) -> bool
    ensures { result ≡ is_string (meant sources.now (parameter n sources.now.parameters.now)) }
{
    let name = sources.parameters.get(n);
    match sources
        .dictionary
        .look_up(sources.signs, sources.store, name)
    {
        Some(Meaning::String(_)) => true,
        _ => false,
    }
}

// How long the whole body is that a parameter names.
fn body_length<C: Code, R: Reader>(sources: &Sources<'_, C, R>, n: usize) -> usize
    ensures { result ≡ length (whole_body (meant sources.now (parameter n sources.now.parameters.now))) }
{
    let name = sources.parameters.get(n);
    match sources
        .dictionary
        .look_up(sources.signs, sources.store, name)
    {
        Some(Meaning::String(string)) => sources.dictionary.body(sources.store, string).len(),
        _ => 0,
    }
}

// Have all names a meaning?
pub(crate) fn are_defined<C: Code, R: Reader>(sources: &Sources<'_, C, R>) -> bool
    ensures { result ≡ list_all (λ (n : Text). is_some (meant sources.now n)) (drop 1 sources.now.parameters.now) }
{
    for n in 1..sources.parameters.len() {
        if !is_defined(sources, n) {
            return false;
        }
    }
    true
}

// Are they all of strings?
pub(crate) fn are_strings<C: Code, R: Reader>(sources: &Sources<'_, C, R>) -> bool
    ensures { result ≡ list_all (λ (n : Text). is_string (meant sources.now n)) (drop 1 sources.now.parameters.now) }
{
    for n in 1..sources.parameters.len() {
        if !is_string(sources, n) {
            return false;
        }
    }
    true
}

// What their names and bodies leave of so many bytes; `None` if they do not fit.
pub(crate) fn room_after<C: Code, R: Reader>(
    sources: &Sources<'_, C, R>,
    room: usize,
) -> Option<usize>
    ensures { MatchOption result (room < strings_bytes (program_made sources.now).strings) (λ left. left + strings_bytes (program_made sources.now).strings ≡ room) }
{
    let mut left = room;
    for n in 1..sources.parameters.len() {
        left = left.checked_sub(sources.parameters.get(n).len())?;
        left = left.checked_sub(body_length(sources, n))?;
    }
    Some(left)
}
