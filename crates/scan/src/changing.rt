// A roll is made, and its calls are closed.
ghost use Rattle.std.specs.Prelude.{◌≡◌, [], take, IfOk};
ghost use Rattle.machine.specs.Scan.{innermost as innermost_in};

use crate::roll::Roll;
use std::alloc::{AllocError, Global};

impl Roll {
    // An empty roll; an error only for want of memory.
    pub fn new(heap: Global, limit: usize) -> Result<Roll, AllocError>
        ensures { IfOk result (λ r. (r.entries.items ≡ []) × (r.limit ≡ limit)) }
    {
        Ok(Roll {
            entries: Vec::with_capacity(heap, limit)?,
            limit,
        })
    }

    // The entries of the innermost call go.
    pub fn close(&mut self)
        ensures entries { self.new.entries.items ≡ take (innermost_in self.old.entries.items) self.old.entries.items }
        ensures limit { self.new.limit ≡ self.old.limit }
    {
        let call = self.innermost();
        self.entries.truncate(call);
    }

    // No call is open any more.
    pub fn clear(&mut self)
        ensures entries { self.new.entries.items ≡ [] }
        ensures limit { self.new.limit ≡ self.old.limit }
    {
        self.entries.clear();
    }
}
