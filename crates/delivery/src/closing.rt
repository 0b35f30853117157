// A call whose value is written: its parameters, and how its text and its entries go.
ghost use Rattle.std.specs.Prelude.{◌≡◌};
ghost use Rattle.machine.specs.Texts.{Text};
ghost use Rattle.machine.specs.World.{World};
ghost use Rattle.machine.specs.Scan.{State, placing, parameters as parameters_of, entry_at};
ghost use Rattle.scan.specs.Texts.{SameArea};
ghost use Rattle.scan.specs.Standing.{state_in};
ghost use Rattle.delivery.specs.Deliveries.{value_of, Written};

use crate::delivery::{Delivery, Placement};
use scan::{Parameters, Roll, ScanTexts};

// Where the outermost call begins in the left text.
fn outermost_start(roll: &Roll) -> usize
    ensures { result ≡ (entry_at roll.now.entries.items 0).at }
{
    if roll.is_inside() {
        roll.entry(0).at
    } else {
        0
    }
}

impl Delivery {
    // The parameters of the call, where its value is written.
    pub fn parameters<'a>(self, texts: &'a ScanTexts<'_>, roll: &'a Roll) -> Parameters<'a>
        ensures { (breaks : _) (s : State) (v : Text) → Written self breaks v s texts.now roll.now → result ≡ parameters_of s }
    {
        let left = texts.left();
        let end = self.left.min(left.len());
        roll.parameters_in(&left[..end])
    }

    // The text of the call and its entries go, where its value is written.
    pub fn close_call(self, texts: &mut ScanTexts<'_>, roll: &mut Roll)
        ensures placed { (breaks : _) (s : State) (v : Text) (w : World) → Written self breaks v s texts.old roll.old → state_in texts.new roll.new w ≡ placing (value_of breaks v) w s }
        ensures same_area { SameArea texts.old texts.new }
        ensures same_limit { roll.new.limit ≡ roll.old.limit }
    {
        match self.placement {
            Placement::Active => texts.cut_left(roll.start()),
            Placement::Passive => {
                let end = self.left.min(texts.left().len());
                let start = roll.start().min(end);
                texts.remove_left(start, end);
            }
            Placement::Break => {
                texts.cut_left(outermost_start(roll));
                roll.clear();
                return;
            }
        }
        roll.close();
    }
}
