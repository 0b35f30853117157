// Make.
ghost use Rattle.std.specs.Prelude.{◌≡◌, Some, None, IfOk, MatchResult};
ghost use Rattle.machine.specs.Calls.{make_refusal};
ghost use Rattle.ttm.specs.Kept.{IsNew};
ghost use Rattle.ttm.specs.Making.{Fails};
ghost use Rattle.ttm.specs.Promises.{PromisesHold};

use crate::make_error::MakeError;
use crate::processor::Processor;
use code::Code;
use dictionary::Dictionary;
use machine::Limits;
use refusal::Refusal;
use scan::Roll;
use signs::read_signs;
use std::alloc::{AllocError, Global};

// Is each limit in range?
fn grant(limits: Limits) -> Result<(), Refusal>
    ensures { MatchResult result (λ _. make_refusal limits ≡ None) (λ e. make_refusal limits ≡ Some e) }
{
    let Limits {
        names,
        roll,
        store,
        scan,
        print,
    } = limits;
    if names <= 128 && roll <= 256 && store <= 32768 && scan <= 32768 && print <= 32768 {
        Ok(())
    } else {
        Err(Refusal::LimitOutOfRange)
    }
}

impl<C: Code + Drop> Processor<C> {
    // A new processor, which keeps the code and has memory for all that the limits grant. What is promised of every processor
    // stands here, by the definitions that expand and look are held to.
    pub fn make(heap: Global, code: C, limits: Limits) -> Result<Processor<C>, MakeError>
        ensures made { MatchResult result (λ p. (make_refusal limits ≡ None) × IsNew p code limits) (λ e. Fails limits e) }
        ensures promises { PromisesHold }
    {
        grant(limits).map_err(MakeError::Refused)?;
        Self::with_memory(heap, code, limits).map_err(|_| MakeError::NoMemory)
    }

    fn with_memory(heap: Global, code: C, limits: Limits) -> Result<Processor<C>, AllocError>
        requires { make_refusal limits ≡ None }
        ensures { IfOk result (λ p. IsNew p code limits) }
    {
        Ok(Processor {
            signs: read_signs(code),
            limits,
            dictionary: Dictionary::new(heap, limits.names)?,
            roll: Roll::new(heap, limits.roll)?,
            created: 0,
            called: vec![in heap; 0; limits.scan]?,
            scratch: vec![in heap; 0; limits.store]?,
        })
    }
}
