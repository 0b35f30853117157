// A new dictionary, and what a dictionary takes.
ghost use Rattle.std.specs.Prelude.{◌≡◌, ◌≤◌, ℕ, List, length, IfOk};
ghost use Rattle.machine.specs.Dictionary.{new_dictionary, names_in, bytes_in};
ghost use Rattle.dictionary.specs.Meant.{dictionary_in};

use crate::dictionary::{CLASSES, Dictionary};
use std::alloc::{AllocError, Global};

impl Dictionary {
    // All built-ins, with memory for so many strings and copied built-ins; an error only for want of memory.
    pub fn new(heap: Global, most_rows: usize) -> Result<Dictionary, AllocError>
        ensures meaning { IfOk result (λ d. (store : List ℕ) → dictionary_in d store ≡ new_dictionary) }
        ensures most_rows { IfOk result (λ d. d.most_rows ≡ most_rows) }
        ensures unused { IfOk result (λ d. d.used ≡ 0) }
    {
        Ok(Dictionary {
            originals: [true; 46],
            rows: Vec::with_capacity(heap, most_rows)?,
            classes: Vec::with_capacity(heap, CLASSES)?,
            row_bytes: 0,
            used: 0,
            most_rows,
        })
    }

    // How many strings and copied built-ins there are.
    pub fn names(&self) -> usize
        ensures { (store : List ℕ) → result ≡ names_in (dictionary_in self.now store) }
    {
        self.rows.len()
    }

    // The bytes in use.
    pub fn bytes(&self) -> usize
        ensures bytes { (store : List ℕ) → self.now.used ≤ length store → result ≡ bytes_in (dictionary_in self.now store) }
        ensures used { result ≡ self.now.used }
    {
        self.used
    }
}
