// How long values are.
ghost use Rattle.std.specs.Prelude.{◌≡◌, length};
ghost use Rattle.value.specs.Texts.{capped};
ghost use Rattle.value.specs.Taking.{text_from, Stands};

use crate::filling::filled_length;
use crate::naming::names_length;
use crate::sources::Sources;
use crate::taking::{behind, front};
use crate::value::Value;
use code::Code;
use library::Reader;
use number::{count_length, written_length};
use selection::length_without_marks;

impl Value {
    // Its length, or the largest usize where it is longer than that.
    pub fn len<C: Code, R: Reader>(self, sources: &Sources<'_, C, R>) -> usize
        requires { Stands sources.now self }
        ensures { result ≡ capped (length (text_from sources.now self)) }
    {
        match self {
            Value::Nothing => 0,
            Value::Parameter(n) => sources.parameter(n).len(),
            Value::Front { parameter, len } => front(sources.parameter(parameter), len).len(),
            Value::Behind { parameter, len } => behind(sources.parameter(parameter), len).len(),
            Value::Reversed(n) => sources.parameter(n).len(),
            Value::Lowered(n) => sources.parameter(n).len(),
            Value::Number(number) => written_length(number),
            Value::Length(n) => count_length(sources.parameter(n).len()),
            Value::Passed { string, len } => {
                length_without_marks(sources.signs, front(sources.rest(string), len))
            }
            Value::Filled { string, created } => filled_length(
                sources.signs,
                sources.parameters,
                created,
                sources.rest(string),
            ),
            Value::Names { program } => names_length(sources.library, program),
        }
    }
}
