//! Why words were not read.

ghost use Rattle.std.specs.Prelude.{◌≡◌};
ghost use Rattle.dsec_word.specs.declared.error.ReadError.TheVariants.{NoMemory};

use std::alloc::{AllocError, AllocFailed};

/// Why words were not read.
#[derive(Clone, Copy, Debug, PartialEq, Eq)]
pub enum ReadError {
    /// They are outside the grammar.
    Bad,
    /// There was no memory left, whatever they are.
    NoMemory,
}

impl From<AllocError> for ReadError {
    ghost from_gives = { λ _ error. error ≡ NoMemory };

    fn from(_error: AllocError) -> ReadError {
        ReadError::NoMemory
    }
}

impl<T: Drop> From<AllocFailed<T>> for ReadError {
    ghost from_gives = { λ _ error. error ≡ NoMemory };

    fn from(_error: AllocFailed<T>) -> ReadError {
        ReadError::NoMemory
    }
}

impl From<dsec_name::NoMemory> for ReadError {
    ghost from_gives = { λ _ error. error ≡ NoMemory };

    fn from(_error: dsec_name::NoMemory) -> ReadError {
        ReadError::NoMemory
    }
}
