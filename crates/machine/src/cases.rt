// The tables of worked cases and of examples stand on contracts, so that they are derived from the definitions wherever the
// crate is proved. The functions do nothing.
ghost use Rattle.machine.specs.Cases.{EveryCaseComesOut};
ghost use Rattle.machine.specs.Examples.{EveryExampleComesOut};

pub fn worked_cases_hold()
    ensures { EveryCaseComesOut }
{}

pub fn worked_examples_hold()
    ensures { EveryExampleComesOut }
{}
