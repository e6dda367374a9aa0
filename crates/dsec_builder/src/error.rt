//! Why an item is not added.

ghost use Rattle.std.specs.Prelude.{◌≡◌, Some};
ghost use Rattle.dsec_builder.specs.Errors.{push_error_text};
ghost use Rattle.dsec_builder.specs.declared.error.PushError.TheVariants.{NoMemory};

use std::alloc::{AllocError, AllocFailed};
use std::fmt;

/// Why an item is not added. The message is as it was before.
#[derive(Clone, Copy, Debug, PartialEq, Eq)]
pub enum PushError {
    /// The message would pass 65535 octets.
    PushError,
    /// There was no memory left.
    NoMemory,
}

impl fmt::Display for PushError {
    ghost output = { λ error. Some (push_error_text error) };

    fn fmt<W: fmt::Write>(&self, f: &mut fmt::Formatter<W>) -> fmt::Result {
        f.write_str(match self {
            PushError::PushError => "PushError",
            PushError::NoMemory => "out of memory",
        })
    }
}

impl From<dsec_name::NoMemory> for PushError {
    ghost from_gives = { λ _ error. error ≡ NoMemory };

    fn from(_error: dsec_name::NoMemory) -> PushError {
        PushError::NoMemory
    }
}
