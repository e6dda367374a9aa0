//! Why anchors were not read.

ghost use Rattle.std.specs.Prelude.{◌≡◌};
ghost use Rattle.dsec_anchors.specs.Texts.{error_of};
ghost use Rattle.dsec_anchors.specs.declared.error.AnchorError.TheVariants.{NoMemory};

use dsec_name::NoMemory;
use dsec_zonefile::{InplaceError, ZonefileError};
use std::alloc::{AllocError, AllocFailed};
use thiserror::Error;

/// Why anchors were not read.
#[derive(Clone, Copy, Debug, PartialEq, Eq, Error)]
pub enum AnchorError {
    /// The text is outside the grammar, or is longer than 16,777,216 octets.
    #[error("InplaceError")]
    InplaceError(InplaceError),
    /// A read failed.
    #[error("ReadError")]
    ReadError,
    /// There was no memory left, whatever the text.
    #[error("out of memory")]
    NoMemory,
}

impl From<ZonefileError> for AnchorError {
    ghost from_gives = { λ error made. made ≡ error_of error };

    fn from(error: ZonefileError) -> AnchorError {
        match error {
            ZonefileError::Inplace(error) => AnchorError::InplaceError(error),
            ZonefileError::NoMemory => AnchorError::NoMemory,
        }
    }
}

impl From<NoMemory> for AnchorError {
    ghost from_gives = { λ _ error. error ≡ NoMemory };

    fn from(_error: NoMemory) -> AnchorError {
        AnchorError::NoMemory
    }
}

impl From<AllocError> for AnchorError {
    ghost from_gives = { λ _ error. error ≡ NoMemory };

    fn from(_error: AllocError) -> AnchorError {
        AnchorError::NoMemory
    }
}

impl<T: Drop> From<AllocFailed<T>> for AnchorError {
    ghost from_gives = { λ _ error. error ≡ NoMemory };

    fn from(_error: AllocFailed<T>) -> AnchorError {
        AnchorError::NoMemory
    }
}
