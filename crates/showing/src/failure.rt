// Why an image is not shown.
ghost use Rattle.std.specs.Prelude.{◌≡◌, Some};
ghost use Rattle.showing.specs.declared.failure.Failure.TheVariants.{Refused, NoMemory};
ghost use Rattle.showing.specs.FailureText.{failure_text};

use refusal::Refusal;
use std::alloc::AllocError;
use std::error::Error;
use std::fmt;

#[derive(Clone, Copy, Debug, PartialEq, Eq)]
pub enum Failure {
    Refused(Refusal),
    NoMemory,
}

impl From<Refusal> for Failure {
    ghost from_gives = { λ refusal failure. failure ≡ Refused refusal };

    fn from(refusal: Refusal) -> Self {
        Self::Refused(refusal)
    }
}

impl From<AllocError> for Failure {
    ghost from_gives = { λ _ failure. failure ≡ NoMemory };

    fn from(_: AllocError) -> Self {
        Self::NoMemory
    }
}

impl fmt::Display for Failure {
    ghost output = { λ failure. Some (failure_text failure) };

    fn fmt<W: fmt::Write>(&self, f: &mut fmt::Formatter<W>) -> fmt::Result {
        match self {
            Failure::Refused(refusal) => {
                let number = refusal.number();
                write!(f, "refused {number}: {refusal}")
            }
            Failure::NoMemory => write!(f, "no memory"),
        }
    }
}

impl Error for Failure {}
