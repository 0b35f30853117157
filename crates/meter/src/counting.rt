// Questions put to a meter.
ghost use Rattle.std.specs.Prelude.{◌≡◌, ◌<◌, ◌≤◌, max, OnOk, IfErr};
ghost use Rattle.machine.specs.Chain.{bounds as bounds_of, taken};
ghost use Rattle.machine.specs.Calls.{from_zero};
ghost use Rattle.meter.specs.Metered.{tally, Asks, Wants};

use crate::meter::Meter;
use crate::question::Question;
use machine::{Amounts, Limits};
use refusal::Refusal;

// The largest created number.
const LAST_NUMBER: usize = 9999;

// Refused if the need is more than the bound; if not, the most that was needed takes it in.
fn count(need: usize, bound: usize, most: &mut usize, refusal: Refusal) -> Result<(), Refusal>
    ensures passed { OnOk result ((need ≤ bound) × (most.new ≡ max most.old need)) }
    ensures short { IfErr result (λ e. (bound < need) × (e ≡ refusal) × (most.new ≡ most.old)) }
{
    if need > bound {
        return Err(refusal);
    }
    *most = (*most).max(need);
    Ok(())
}

impl Meter {
    // A meter for an expansion that has yet to begin.
    pub fn start(limits: Limits, allowance: usize, created: usize) -> Meter
        ensures bounds { result.bounds ≡ bounds_of limits allowance }
        ensures tally { tally result ≡ from_zero created }
    {
        Meter {
            bounds: limits.with_allowance(allowance),
            needs: Amounts::default(),
            created,
            wanted: false,
        }
    }

    // Does the need fit its bound? If so it is counted.
    pub fn put(&mut self, question: Question, need: usize) -> Result<(), Refusal>
        ensures { Asks question need self.old self.new result }
    {
        let (bounds, needs) = (self.bounds, &mut self.needs);
        match question {
            Question::Source => count(need, bounds.scan, &mut needs.scan, Refusal::SourceTooLong),
            Question::Step => count(need, bounds.steps, &mut needs.steps, Refusal::OutOfSteps),
            Question::Roll => count(need, bounds.roll, &mut needs.roll, Refusal::RollFull),
            Question::Names => count(need, bounds.names, &mut needs.names, Refusal::NamesFull),
            Question::Store => count(need, bounds.store, &mut needs.store, Refusal::StoreFull),
            Question::Print => count(need, bounds.print, &mut needs.print, Refusal::PrintFull),
            Question::Value => count(need, bounds.scan, &mut needs.scan, Refusal::ScanFull),
        }
    }

    // The number that a value is to have, if one is left; it is not taken yet.
    pub fn want_number(&mut self) -> Result<usize, Refusal>
        ensures { Wants self.old self.new result }
    {
        self.wanted = true;
        if self.created < LAST_NUMBER {
            Ok(self.created + 1)
        } else {
            Err(Refusal::NoCreatedNumber)
        }
    }

    // The number that a value has is taken.
    pub fn take_number(&mut self)
        requires { self.old.created < 9999 }
        ensures bounds { self.new.bounds ≡ self.old.bounds }
        ensures tally { tally self.new ≡ taken (tally self.old) }
    {
        self.created += 1;
    }
}
