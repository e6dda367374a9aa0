//! Why zone text isn't signed.

ghost use Rattle.std.specs.Prelude.{◌≡◌};
ghost use Rattle.dsec_signing.specs.Making.{unsigned_of};
ghost use Rattle.dsec_signing.specs.Reading.{error_of};
ghost use Rattle.dsec_signing.specs.declared.error.SourceError.TheVariants.{NoMemory};
ghost use Rattle.dsec_signing.specs.declared.error.Unsigned.TheVariants as unsigned;

use dsec_name::NoMemory;
use dsec_rrsig::SigningError;
use dsec_zonefile::ZonefileError;
use std::alloc::{AllocError, AllocFailed};

/// What is wrong with a line, in a word.
#[derive(Clone, Copy, Debug, PartialEq, Eq)]
pub enum Word {
    /// The text is longer than 16,777,216 octets.
    Size,
    /// The line is outside the grammar, or an entry begins there that may not stand in a zone to be signed.
    Zone,
}

/// The first line of a zone text that is refused, and why.
#[derive(Clone, Copy, Debug, PartialEq, Eq)]
pub struct Refused {
    /// The line's number; the first line has the number 1, and lines that are passed over count.
    pub line: usize,
    /// What is wrong with it.
    pub word: Word,
}

/// Why a zone text was not read.
#[derive(Clone, Copy, Debug, PartialEq, Eq)]
pub enum SourceError {
    /// The text is refused.
    Refused(Refused),
    /// There was no memory left, whatever the text.
    NoMemory,
}

impl From<ZonefileError> for SourceError {
    ghost from_gives = { λ error made. made ≡ error_of error };

    fn from(error: ZonefileError) -> SourceError {
        match error {
            ZonefileError::Inplace(error) => SourceError::Refused(Refused {
                line: error.line,
                word: Word::Zone,
            }),
            ZonefileError::NoMemory => SourceError::NoMemory,
        }
    }
}

impl From<NoMemory> for SourceError {
    ghost from_gives = { λ _ error. error ≡ NoMemory };

    fn from(_error: NoMemory) -> SourceError {
        SourceError::NoMemory
    }
}

impl From<AllocError> for SourceError {
    ghost from_gives = { λ _ error. error ≡ NoMemory };

    fn from(_error: AllocError) -> SourceError {
        SourceError::NoMemory
    }
}

impl<T: Drop> From<AllocFailed<T>> for SourceError {
    ghost from_gives = { λ _ error. error ≡ NoMemory };

    fn from(_error: AllocFailed<T>) -> SourceError {
        SourceError::NoMemory
    }
}

/// Why a zone is not signed.
#[derive(Clone, Copy, Debug, PartialEq, Eq)]
pub enum Unsigned {
    /// Signing is refused.
    Refused(SigningError),
    /// There was no memory left, whatever the zone.
    NoMemory,
}

impl From<SigningError> for Unsigned {
    ghost from_gives = { λ error made. made ≡ unsigned_of error };

    fn from(error: SigningError) -> Unsigned {
        match error {
            SigningError::OutOfMemory => Unsigned::NoMemory,
            _ => Unsigned::Refused(error),
        }
    }
}

impl From<NoMemory> for Unsigned {
    ghost from_gives = { λ _ error. error ≡ unsigned.NoMemory };

    fn from(_error: NoMemory) -> Unsigned {
        Unsigned::NoMemory
    }
}

impl From<AllocError> for Unsigned {
    ghost from_gives = { λ _ error. error ≡ unsigned.NoMemory };

    fn from(_error: AllocError) -> Unsigned {
        Unsigned::NoMemory
    }
}
