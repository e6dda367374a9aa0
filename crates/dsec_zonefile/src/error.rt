//! What is refused, and the want of memory.

ghost use Rattle.std.specs.Prelude.{◌≡◌};
ghost use Rattle.dsec_zonefile.specs.declared.error.ZonefileError.TheVariants.{NoMemory};

use std::alloc::AllocError;
use thiserror::Error;

/// Zone text is refused.
#[derive(Clone, Copy, Debug, PartialEq, Eq, Error)]
#[error("InplaceError")]
pub struct InplaceError {
    /// The line where the refused entry begins. The first line has the number 1; lines that are passed over count.
    pub line: usize,
}

/// Why no entry was read.
#[derive(Clone, Copy, Debug, PartialEq, Eq)]
pub enum ZonefileError {
    /// The text is refused.
    Inplace(InplaceError),
    /// There was no memory left, whatever the text.
    NoMemory,
}

impl From<AllocError> for ZonefileError {
    ghost from_gives = { λ _ error. error ≡ NoMemory };

    fn from(_error: AllocError) -> ZonefileError {
        ZonefileError::NoMemory
    }
}

impl From<dsec_name::NoMemory> for ZonefileError {
    ghost from_gives = { λ _ error. error ≡ NoMemory };

    fn from(_error: dsec_name::NoMemory) -> ZonefileError {
        ZonefileError::NoMemory
    }
}
