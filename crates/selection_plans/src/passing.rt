// Pointers that move on.
ghost use Rattle.std.specs.Prelude.{◌≡◌, ◌+◌, ◌≤◌};
ghost use Rattle.plan.specs.declared.effect.Effect.TheVariants as effect;

use dictionary::StringPlace;
use plan::{Effect, Plan};
use value::Value;

// A value, and the pointer of the string moves past so many bytes. That parameter, counted from 0, names the string.
pub(crate) fn pass(value: Value, name: usize, string: StringPlace, len: usize) -> Plan
    requires { string.extent.pointer + len ≤ string.extent.length }
    ensures { result ≡ record { value = value; effect = effect.MovePointer name string (string.extent.pointer + len) } }
{
    Plan {
        value,
        effect: Effect::MovePointer {
            name,
            string,
            pointer: string.extent.pointer + len,
        },
    }
}
