// A new shelf.
ghost use Rattle.std.specs.Prelude.{◌≡◌, IfOk};
ghost use Rattle.shelf.specs.Shelved.{meaning_of, empty_library};

use crate::shelf::{BYTES, PROGRAMS, STRINGS, Shelf};
use std::alloc::{AllocError, Global};

impl Shelf {
    // A shelf of no programs; an error only for want of memory.
    pub fn new(heap: Global) -> Result<Shelf, AllocError>
        ensures { IfOk result (λ s. meaning_of s ≡ empty_library) }
    {
        Ok(Shelf {
            programs: Vec::with_capacity(heap, PROGRAMS)?,
            strings: Vec::with_capacity(heap, STRINGS)?,
            bytes: Vec::with_capacity(heap, BYTES)?,
        })
    }
}
