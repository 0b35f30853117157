// A value and an effect.
ghost use Rattle.std.specs.Prelude.{◌≡◌};
ghost use Rattle.value.specs.declared.value.Value.TheVariants as value;
ghost use Rattle.plan.specs.declared.effect.Effect.TheVariants as effect;

use crate::effect::Effect;
use value::Value;

#[derive(Clone, Copy)]
pub struct Plan {
    pub value: Value,
    pub effect: Effect,
}

impl Plan {
    // A value, and nothing changes.
    pub fn of_value(value: Value) -> Plan
        ensures { result ≡ record { value = value; effect = effect.Nothing } }
    {
        Plan {
            value,
            effect: Effect::Nothing,
        }
    }

    // No value, and something changes.
    pub fn of_effect(effect: Effect) -> Plan
        ensures { result ≡ record { value = value.Nothing; effect = effect } }
    {
        Plan {
            value: Value::Nothing,
            effect,
        }
    }
}
