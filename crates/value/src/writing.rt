// Writing values.
ghost use Rattle.std.specs.Prelude.{◌≡◌, length, map, reverse, decimal, pos};
ghost use Rattle.std.specs.Fmt.{signed_decimal};
ghost use Rattle.machine.specs.Texts.{without_marks};
ghost use Rattle.machine.specs.Numbers.{written};
ghost use Rattle.value.specs.Taking.{text_from, Stands};

use crate::filling::write_filled;
use crate::naming::write_names;
use crate::sources::Sources;
use crate::taking::{behind, front};
use crate::value::Value;
use code::Code;
use library::Reader;
use number::{write_count, write_integer};
use selection::copy_without_marks;
use signs::Signs;

fn write_reversed(text: &[u8], out: &mut [u8])
    requires { length out.old ≡ length text.now }
    ensures { out.new ≡ reverse text.now }
{
    out.copy_from_slice(text);
    out.reverse();
}

fn write_lowered<C: Code>(signs: &Signs<C>, text: &[u8], out: &mut [u8])
    requires { length out.old ≡ length text.now }
    ensures { out.new ≡ map C.Code.meaning.lower text.now }
{
    out.copy_from_slice(text);
    for byte in out.iter_mut() {
        *byte = signs.code.lower(*byte);
    }
}

fn write_number<C: Code>(signs: &Signs<C>, number: i64, out: &mut [u8])
    requires { length out.old ≡ length (signed_decimal number) }
    ensures { out.new ≡ written C.Code.meaning number }
{
    write_integer(signs, number, out);
}

fn write_length<C: Code>(signs: &Signs<C>, len: usize, out: &mut [u8])
    requires { length out.old ≡ length (decimal len) }
    ensures { out.new ≡ written C.Code.meaning (pos len) }
{
    write_count(signs, len, out);
}

fn write_without_marks<C: Code>(signs: &Signs<C>, text: &[u8], out: &mut [u8])
    requires { length out.old ≡ length (without_marks C.Code.meaning text.now) }
    ensures { out.new ≡ without_marks C.Code.meaning text.now }
{
    copy_without_marks(signs, text, out);
}

impl Value {
    // Its text, which is as long as `out`.
    pub fn write<C: Code, R: Reader>(self, sources: &Sources<'_, C, R>, out: &mut [u8])
        requires stands { Stands sources.now self }
        requires fits { length out.old ≡ length (text_from sources.now self) }
        ensures { out.new ≡ text_from sources.now self }
    {
        match self {
            Value::Nothing => {}
            Value::Parameter(n) => out.copy_from_slice(sources.parameter(n)),
            Value::Front { parameter, len } => {
                out.copy_from_slice(front(sources.parameter(parameter), len))
            }
            Value::Behind { parameter, len } => {
                out.copy_from_slice(behind(sources.parameter(parameter), len))
            }
            Value::Reversed(n) => write_reversed(sources.parameter(n), out),
            Value::Lowered(n) => write_lowered(sources.signs, sources.parameter(n), out),
            Value::Number(number) => write_number(sources.signs, number, out),
            Value::Length(n) => write_length(sources.signs, sources.parameter(n).len(), out),
            Value::Passed { string, len } => {
                write_without_marks(sources.signs, front(sources.rest(string), len), out)
            }
            Value::Filled { string, created } => write_filled(
                sources.signs,
                sources.parameters,
                created,
                sources.rest(string),
                out,
            ),
            Value::Names { program } => {
                write_names(sources.signs, sources.library, program, out)
            }
        }
    }
}
