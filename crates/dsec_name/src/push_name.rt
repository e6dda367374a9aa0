//! Why labels are no name.

ghost use Rattle.std.specs.Prelude.{◌≡◌, Some};
ghost use Rattle.dsec_name.specs.JoinedNames.{push_name_error_text};
ghost use Rattle.dsec_name.specs.declared.push_name.PushNameError.TheVariants.{NoMemory};

use std::alloc::{AllocError, AllocFailed};
use std::fmt;

/// Why labels are not put together to a name.
#[derive(Clone, Copy, Debug, PartialEq, Eq)]
pub enum PushNameError {
    /// The name would have more than 255 octets on the wire (RFC 1035 2.3.4).
    PushNameError,
    /// There was no memory left.
    NoMemory,
}

impl fmt::Display for PushNameError {
    ghost output = { λ error. Some (push_name_error_text error) };

    fn fmt<W: fmt::Write>(&self, f: &mut fmt::Formatter<W>) -> fmt::Result {
        f.write_str(match self {
            PushNameError::PushNameError => "PushNameError",
            PushNameError::NoMemory => "out of memory",
        })
    }
}

impl From<AllocError> for PushNameError {
    ghost from_gives = { λ _ error. error ≡ NoMemory };

    fn from(_error: AllocError) -> PushNameError {
        PushNameError::NoMemory
    }
}

impl<T: Drop> From<AllocFailed<T>> for PushNameError {
    ghost from_gives = { λ _ error. error ≡ NoMemory };

    fn from(_error: AllocFailed<T>) -> PushNameError {
        PushNameError::NoMemory
    }
}

impl From<crate::error::NoMemory> for PushNameError {
    ghost from_gives = { λ _ error. error ≡ NoMemory };

    fn from(_error: crate::error::NoMemory) -> PushNameError {
        PushNameError::NoMemory
    }
}
