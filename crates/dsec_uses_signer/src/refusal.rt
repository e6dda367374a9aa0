//! Why the zone of a text isn't signed by its own key, or not written.

ghost use Rattle.std.specs.Prelude.{◌≡◌};
ghost use Rattle.dsec_uses_signer.specs.Refusals.{of_signing, of_source};
ghost use Rattle.dsec_uses_signer.specs.declared.refusal.Refusal.TheVariants.{NoMemory};

use dsec_name::NoMemory;
use dsec_sign::SigningError;
use dsec_signing::{Refused, SourceError};
use std::alloc::{AllocError, AllocFailed};
use thiserror::Error;

/// Why the zone of a text isn't signed by its own key, or not written.
#[derive(Clone, Copy, Debug, Error)]
pub enum Refusal {
    /// The text says no zone: its first line that is refused.
    #[error("line {}: no zone text", .0.line)]
    Text(Refused),
    /// No record is one of a key.
    #[error("no key")]
    NoKey,
    /// Several records are.
    #[error("several keys")]
    SeveralKeys,
    /// The signer doesn't take the key, for its protocol, its algorithm or its length.
    #[error("no key of the signer's")]
    ForeignKey,
    /// The key isn't for zone data (RFC 4034 2.1.1).
    #[error("no key for zone data")]
    OtherKey,
    /// The records are of several classes.
    #[error("several classes")]
    SeveralClasses,
    /// Signing is refused; want of memory isn't told by this.
    #[error("{0}")]
    Unsigned(SigningError),
    /// A write failed.
    #[error("a write failed")]
    Write,
    /// There was no memory left, whatever the text.
    #[error("out of memory")]
    NoMemory,
}

impl From<SourceError> for Refusal {
    ghost from_gives = { λ error made. made ≡ of_source error };

    fn from(error: SourceError) -> Refusal {
        match error {
            SourceError::Refused(refused) => Refusal::Text(refused),
            SourceError::NoMemory => Refusal::NoMemory,
        }
    }
}

impl From<SigningError> for Refusal {
    ghost from_gives = { λ error made. made ≡ of_signing error };

    fn from(error: SigningError) -> Refusal {
        match error {
            SigningError::OutOfMemory => Refusal::NoMemory,
            _ => Refusal::Unsigned(error),
        }
    }
}

impl From<NoMemory> for Refusal {
    ghost from_gives = { λ _ made. made ≡ NoMemory };

    fn from(_error: NoMemory) -> Refusal {
        Refusal::NoMemory
    }
}

impl From<AllocError> for Refusal {
    ghost from_gives = { λ _ made. made ≡ NoMemory };

    fn from(_error: AllocError) -> Refusal {
        Refusal::NoMemory
    }
}

impl<T: Drop> From<AllocFailed<T>> for Refusal {
    ghost from_gives = { λ _ made. made ≡ NoMemory };

    fn from(_error: AllocFailed<T>) -> Refusal {
        Refusal::NoMemory
    }
}
