// The parameter that is chosen.
ghost use Rattle.std.specs.Prelude.{◌≡◌, if◌then◌else◌};
ghost use Rattle.value.specs.declared.value.Value.TheVariants.{Parameter};

use value::Value;

// Parameter 3 if so, else parameter 4.
pub fn chosen(first: bool) -> Value
    ensures { result ≡ Parameter (if first then 2 else 3) }
{
    Value::Parameter(if first { 2 } else { 3 })
}
