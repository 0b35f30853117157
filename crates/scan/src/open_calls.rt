// The innermost call, as it is read off the roll.
ghost use Rattle.std.specs.Prelude.{◌≡◌, ◌<◌, ◌≤◌, ℕ, List, length};
ghost use Rattle.machine.specs.Texts.{not_empty};
ghost use Rattle.machine.specs.World.{World};
ghost use Rattle.machine.specs.Scan.{is_active, entry_at, innermost as innermost_in, called_name, parameters as parameters_in};
ghost use Rattle.scan.specs.Openings.{LastOpening};
ghost use Rattle.scan.specs.Standing.{state_in};

use crate::fields::{behind, field};
use crate::parameters::Parameters;
use crate::roll::Roll;
use crate::texts::ScanTexts;
use machine::{Begins, RollEntry};

// The last entry that opens a call.
fn last_opening(entries: &[RollEntry]) -> Option<usize>
    ensures { LastOpening entries.now result }
{
    entries
        .iter()
        .rposition(|entry| entry.begins != Begins::Parameter)
}

impl Roll {
    // Is a call open?
    pub fn is_inside(&self) -> bool
        ensures { result ≡ not_empty self.now.entries.items }
    {
        !self.entries.is_empty()
    }

    // The entry at which the innermost call begins.
    pub fn innermost(&self) -> usize
        ensures value { result ≡ innermost_in self.now.entries.items }
        ensures within { result ≤ length self.now.entries.items }
    {
        last_opening(&self.entries).unwrap_or(0)
    }

    // An entry of the roll.
    pub fn entry(&self, at: usize) -> RollEntry
        requires { at < length self.now.entries.items }
        ensures { result ≡ entry_at self.now.entries.items at }
    {
        self.entries[at]
    }

    // Does the value of the innermost call go before the right text?
    pub fn is_active(&self) -> bool
        ensures { result ≡ is_active (entry_at self.now.entries.items (innermost_in self.now.entries.items)).begins }
    {
        self.entries
            .get(self.innermost())
            .is_some_and(|entry| entry.begins == Begins::ActiveCall)
    }

    // Where the innermost call begins in the left text.
    pub fn start(&self) -> usize
        ensures { result ≡ (entry_at self.now.entries.items (innermost_in self.now.entries.items)).at }
    {
        self.entries
            .get(self.innermost())
            .map_or(0, |entry| entry.at)
    }

    // The name of the innermost call.
    pub fn name<'a>(&self, texts: &'a ScanTexts<'_>) -> &'a [u8]
        ensures { (w : World) → result.now ≡ called_name (state_in texts.now self.now w) }
    {
        field(&self.entries, texts.left(), self.innermost())
    }

    // The parameters of the innermost call, in a text that is the left text.
    pub fn parameters_in<'a>(&'a self, left: &'a [u8]) -> Parameters<'a>
        ensures { (right : List ℕ) (w : World) → result ≡ parameters_in (record { left = left.now; right = right; roll = self.now.entries.items; world = w }) }
    {
        Parameters {
            left,
            entries: behind(&self.entries, self.innermost()),
        }
    }

    // The parameters of the innermost call.
    pub fn parameters<'a>(&'a self, texts: &'a ScanTexts<'_>) -> Parameters<'a>
        ensures { (w : World) → result ≡ parameters_in (state_in texts.now self.now w) }
    {
        self.parameters_in(texts.left())
    }
}
