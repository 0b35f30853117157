// Why a line is not read.
ghost use Rattle.std.specs.Prelude.{◌≡◌};
ghost use Rattle.library_cases.specs.declared.read_error.ReadError.TheVariants.{NoMemory};

use std::alloc::{AllocError, AllocFailed};

#[derive(Clone, Copy, PartialEq, Eq, Debug)]
pub enum ReadError {
    // it is no command
    BadLine,
    NoMemory(AllocError),
}

impl From<AllocError> for ReadError {
    ghost from_gives = { λ error r. r ≡ NoMemory error };

    fn from(error: AllocError) -> ReadError {
        ReadError::NoMemory(error)
    }
}

impl<T: Drop> From<AllocFailed<T>> for ReadError {
    ghost from_gives = { λ _ r. r ≡ NoMemory (record {}) };

    fn from(_refused: AllocFailed<T>) -> ReadError {
        ReadError::NoMemory(AllocError)
    }
}
