// Expand.
ghost use Rattle.std.specs.Prelude.{◌≡◌, ◌≤◌, IfErr, MatchResult, length};
ghost use Rattle.refusal.specs.Numbers.{number_of};
ghost use Rattle.machine.specs.Calls.{expand, done};
ghost use Rattle.ttm.specs.Answers.{Replied};
ghost use Rattle.ttm.specs.Entering.{LetIn, TurnedAway, areas_of};
ghost use Rattle.ttm.specs.Kept.{memory_in, SameKept};

use crate::entry::{admit_expansion, foreign_place};
use crate::processor::Processor;
use crate::report::{Refused, Report};
use code::Code;
use library::Keeper;
use refusal::Refusal;

impl<C: Code> Processor<C> {
    // The questions at the entry of an expansion.
    fn let_in(
        &self,
        allowance: usize,
        source: &[u8],
        store: usize,
        scan: usize,
        print: usize,
    ) -> Result<(), Refusal>
        ensures { MatchResult result (λ _. LetIn C.Code.meaning self.now.limits allowance source.now (areas_of store scan print)) (TurnedAway C.Code.meaning self.now.limits allowance source.now (areas_of store scan print)) }
    {
        admit_expansion(self.limits, store, scan, print, allowance)?;
        match foreign_place(&self.signs, source) {
            Some(_) => Err(Refusal::ForeignSource),
            None => Ok(()),
        }
    }

    // A source is expanded. Its text begins the scan area then, and what it printed the print area. Refusals up to 12 touch
    // nothing; from 18 on the scan area begins with the name of the call that was being made.
    pub fn expand<K: Keeper>(
        &mut self,
        library: &mut K,
        allowance: usize,
        source: &[u8],
        store: &mut [u8],
        scan: &mut [u8],
        print: &mut [u8],
    ) -> Result<Report, Refused>
        ensures replied { Replied result scan.new print.new (done C.Code.meaning self.old.limits (memory_in self.old store.old (K.Reader.meaning library.old)) (expand allowance source.now (areas_of (length store.old) (length scan.old) (length print.old)))).after.replied }
        ensures memory { memory_in self.new store.new (K.Reader.meaning library.new) ≡ (done C.Code.meaning self.old.limits (memory_in self.old store.old (K.Reader.meaning library.old)) (expand allowance source.now (areas_of (length store.old) (length scan.old) (length print.old)))).memory }
        ensures kept { SameKept self.old self.new }
        ensures untouched { IfErr result (λ e. number_of e.refusal ≤ 12 → (store.new ≡ store.old) × (scan.new ≡ scan.old) × (print.new ≡ print.old)) }
    {
        let limits = self.limits;
        if let Err(refusal) = self.let_in(allowance, source, store.len(), scan.len(), print.len()) {
            return Err(Refused::at_entry(refusal));
        }
        self.run(
            library,
            allowance,
            source,
            &mut store[..limits.store],
            &mut scan[..limits.scan],
            &mut print[..limits.print],
        )
    }
}
