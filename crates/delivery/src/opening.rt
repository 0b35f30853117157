// A call's delivery, before anything changes.
ghost use Rattle.std.specs.Prelude.{◌≡◌};
ghost use Rattle.machine.specs.World.{World};
ghost use Rattle.scan.specs.Standing.{state_in};
ghost use Rattle.delivery.specs.Deliveries.{delivery_of};

use crate::delivery::{Delivery, Placement};
use scan::{Roll, ScanTexts};

impl Delivery {
    // The delivery of the innermost call; does its value become the right text?
    pub fn of_call(texts: &ScanTexts<'_>, roll: &Roll, breaks: bool) -> Delivery
        ensures { (w : World) → result ≡ delivery_of breaks (state_in texts.now roll.now w) }
    {
        let placement = if breaks {
            Placement::Break
        } else if roll.is_active() {
            Placement::Active
        } else {
            Placement::Passive
        };
        Delivery {
            placement,
            left: texts.left().len(),
        }
    }
}
