// An expansion whose call was let in.
ghost use Rattle.std.specs.Prelude.{◌≡◌, ◌≤◌, IfErr, length};
ghost use Rattle.refusal.specs.Numbers.{number_of};
ghost use Rattle.machine.specs.Calls.{expand, came_to, world_of, from_zero};
ghost use Rattle.machine.specs.Chain.{bounds, walk};
ghost use Rattle.machine.specs.Scan.{expansion};
ghost use Rattle.ttm.specs.Kept.{memory_in, SameKept};
ghost use Rattle.ttm.specs.Answers.{Replied};

use crate::concluding::conclude;
use crate::processor::Processor;
use crate::report::{Refused, Report};
use code::Code;
use expansion::expand_source;
use library::Keeper;
use meter::Meter;

impl<C: Code> Processor<C> {
    // The areas are as long as their limits.
    pub(crate) fn run<K: Keeper>(
        &mut self,
        library: &mut K,
        allowance: usize,
        source: &[u8],
        store: &mut [u8],
        scan: &mut [u8],
        print: &mut [u8],
    ) -> Result<Report, Refused>
        requires store { length store.old ≡ self.old.limits.store }
        requires scan { length scan.old ≡ self.old.limits.scan }
        requires print { length print.old ≡ self.old.limits.print }
        requires allowed { allowance ≤ 1000000 }
        ensures replied { Replied result scan.new print.new (came_to (walk (bounds self.old.limits allowance) (from_zero self.old.created) (expansion C.Code.meaning source.now (world_of (memory_in self.old store.old (K.Reader.meaning library.old)))))).after.replied }
        ensures memory { memory_in self.new store.new (K.Reader.meaning library.new) ≡ (came_to (walk (bounds self.old.limits allowance) (from_zero self.old.created) (expansion C.Code.meaning source.now (world_of (memory_in self.old store.old (K.Reader.meaning library.old)))))).memory }
        ensures kept { SameKept self.old self.new }
        ensures late { IfErr result (λ e. 13 ≤ number_of e.refusal) }
    {
        let mut meter = Meter::start(self.limits, allowance, self.created);
        let expanded = expand_source(
            &self.signs,
            &mut self.dictionary,
            &mut self.roll,
            library,
            store,
            scan,
            print,
            &mut self.called,
            &mut self.scratch,
            source,
            &mut meter,
        );
        self.created = meter.created;
        conclude(
            expanded.outcome,
            &self.called[..expanded.called],
            scan,
            expanded.printed,
            meter.needs,
        )
    }
}
