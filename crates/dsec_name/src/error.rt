//! What is refused, and the want of memory.

ghost use Rattle.std.specs.Prelude.{◌≡◌, Some, codes};
ghost use Rattle.dsec_name.specs.declared.error.NameError.TheVariants.{NoMemory};
ghost use Rattle.dsec_name.specs.Errors.{name_error_text};

use std::alloc::{AllocError, AllocFailed};
use std::fmt;

/// There was no memory left.
#[derive(Clone, Copy, Debug, PartialEq, Eq)]
pub struct NoMemory;

impl fmt::Display for NoMemory {
    ghost output = { λ _. Some (codes "out of memory") };

    fn fmt<W: fmt::Write>(&self, f: &mut fmt::Formatter<W>) -> fmt::Result {
        f.write_str("out of memory")
    }
}

impl From<AllocError> for NoMemory {
    fn from(_error: AllocError) -> NoMemory {
        NoMemory
    }
}

impl<T: Drop> From<AllocFailed<T>> for NoMemory {
    fn from(_error: AllocFailed<T>) -> NoMemory {
        NoMemory
    }
}

/// Why octets or a text are no name. The first of these that holds is the answer.
#[derive(Clone, Copy, Debug, PartialEq, Eq)]
pub enum NameError {
    /// These are no labels at all.
    BadLabel,
    /// A label has more than 63 octets (RFC 1035 2.3.4).
    LongLabel,
    /// The name has more than 255 octets on the wire (RFC 1035 2.3.4).
    LongName,
    /// There was no memory left, whatever the input.
    NoMemory,
}

impl fmt::Display for NameError {
    ghost output = { λ error. Some (name_error_text error) };

    fn fmt<W: fmt::Write>(&self, f: &mut fmt::Formatter<W>) -> fmt::Result {
        f.write_str(match self {
            NameError::BadLabel => "BadLabel",
            NameError::LongLabel => "LongLabel",
            NameError::LongName => "LongName",
            NameError::NoMemory => "out of memory",
        })
    }
}

impl From<AllocError> for NameError {
    ghost from_gives = { λ _ error. error ≡ NoMemory };

    fn from(_error: AllocError) -> NameError {
        NameError::NoMemory
    }
}

impl<T: Drop> From<AllocFailed<T>> for NameError {
    ghost from_gives = { λ _ error. error ≡ NoMemory };

    fn from(_error: AllocFailed<T>) -> NameError {
        NameError::NoMemory
    }
}

impl From<NoMemory> for NameError {
    ghost from_gives = { λ _ error. error ≡ NoMemory };

    fn from(_error: NoMemory) -> NameError {
        NameError::NoMemory
    }
}
