// What is asked of an effect.
ghost use Rattle.std.specs.Prelude.{◌≡◌};
ghost use Rattle.plan.specs.Effects.{is_numbered};

use crate::effect::Effect;

impl Effect {
    // Are there mark numbers enough?
    pub fn is_numbered(self) -> bool
        ensures { result ≡ is_numbered self }
    {
        match self {
            Effect::Segment { numbered, .. } => numbered,
            _ => true,
        }
    }
}
