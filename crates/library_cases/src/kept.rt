// The library of a script: a shelf, which may be behind a lock.
ghost use Rattle.std.specs.Prelude.{◌≡◌, IfOk};
ghost use Rattle.listing.specs.Adds.{Adds};
ghost use Rattle.library.specs.Locked.{locked_library};
ghost use Rattle.shelf.specs.Shelved.{empty_library};
ghost use Rattle.library_cases.specs.Commands.{asked};
ghost use Rattle.library_cases.specs.Answers.{answered, left_by};
ghost use Rattle.library_cases.specs.Scripts.{kept_meaning};

use crate::answers::push_answer;
use crate::command::Task;
use library::Lock;
use shelf::Shelf;
use std::alloc::{AllocError, Global};

#[derive(Drop)]
pub enum Kept {
    Open(Shelf),
    Locked(Lock<Shelf>),
}

impl Kept {
    // An empty shelf.
    pub fn new(heap: Global) -> Result<Kept, AllocError>
        ensures { IfOk result (λ k. kept_meaning k ≡ empty_library) }
    {
        Ok(Kept::Open(Shelf::new(heap)?))
    }

    // The same shelf behind a lock.
    pub fn lock(self) -> Kept
        ensures { kept_meaning result ≡ locked_library (kept_meaning self).programs }
    {
        match self {
            Kept::Open(shelf) => Kept::Locked(Lock { inner: shelf }),
            Kept::Locked(lock) => Kept::Locked(lock),
        }
    }

    // Does what is asked of the library, and adds the answer to a text.
    pub fn ask(&mut self, task: &Task, out: &mut String) -> Result<(), AllocError>
        ensures answer { Adds out.old result out.new (answered (kept_meaning self.old) (asked task.now)) }
        ensures after { kept_meaning self.new ≡ left_by (kept_meaning self.old) (asked task.now) }
    {
        match self {
            Kept::Open(shelf) => push_answer(out, shelf, task),
            Kept::Locked(lock) => push_answer(out, lock, task),
        }
    }
}
