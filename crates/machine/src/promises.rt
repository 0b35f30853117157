// The statements of specs/ChainLaws.antt, Faults.antt and Promises.antt stand on contracts here, so that they are proved
// wherever the crate is. The functions do nothing.
ghost use Rattle.machine.specs.ChainLaws.{WalkOfBind, NeedsNeverFall, NeedsStayWithinBounds, ReportedNeedsAreWithinBounds};
ghost use Rattle.machine.specs.Faults.{FaultsAreNoShortages};
ghost use Rattle.machine.specs.Promises.{RaisingLimitsChangesNothingBeforeTheFirstShortage, ReportedNeedsAreExact, AnEmptiedDictionaryIsNew, AnEmptiedProcessorIsAsNew, FinishedUnlessOutOfSteps};

// What holds of every chain, and of what every call reports.
pub fn chain_laws_hold()
    ensures bind { WalkOfBind }
    ensures rising { NeedsNeverFall }
    ensures within { NeedsStayWithinBounds }
    ensures reported { ReportedNeedsAreWithinBounds }
{}

// What is promised of every list of calls.
pub fn promises_hold()
    ensures raising { RaisingLimitsChangesNothingBeforeTheFirstShortage }
    ensures needs { ReportedNeedsAreExact }
    ensures emptied { AnEmptiedDictionaryIsNew }
    ensures renewed { AnEmptiedProcessorIsAsNew }
    ensures finished { FinishedUnlessOutOfSteps }
    ensures faults { FaultsAreNoShortages }
{}
