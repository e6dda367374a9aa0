//! Why a chain of denial isn't made.

ghost use Rattle.std.specs.Prelude.{◌≡◌, Some, codes};
ghost use Rattle.dsec_chain.specs.declared.error.DenialError.TheVariants.{NoMemory as WantsMemory};
ghost use Rattle.dsec_chain.specs.Errors.{denial_error_text, hash_error_text};

use dsec_name::NoMemory;
use std::fmt;

/// Why names aren't hashed.
#[derive(Clone, Copy, Debug, PartialEq, Eq)]
pub enum Nsec3HashError {
    /// The hash algorithm isn't SHA-1.
    UnsupportedAlgorithm,
    /// There was no memory left; this never comes, since hashing takes none, and a chain for which there is none is refused with
    /// `DenialError::NoMemory`.
    AppendError,
    /// A hash is no owner's; this never comes.
    OwnerHashError,
    /// Two names have one hash.
    CollisionDetected,
    /// A name has no hash; this never comes.
    MissingHash,
    /// The owner of an NSEC3 record would have more than 255 octets.
    Nsec3NameTooLong,
}

impl fmt::Display for Nsec3HashError {
    ghost output = { λ error. Some (hash_error_text error) };

    fn fmt<W: fmt::Write>(&self, f: &mut fmt::Formatter<W>) -> fmt::Result {
        f.write_str(match self {
            Nsec3HashError::UnsupportedAlgorithm => "Unsupported algorithm",
            Nsec3HashError::AppendError => "Append error: out of memory?",
            Nsec3HashError::OwnerHashError => "Hashing produced an invalid owner hash",
            Nsec3HashError::CollisionDetected => "Hash collision detected",
            Nsec3HashError::MissingHash => "Missing hash for owner name",
            Nsec3HashError::Nsec3NameTooLong => "Resulting NSEC3 owner name too long",
        })
    }
}

/// Why the records of a chain aren't made.
#[derive(Clone, Copy, Debug, PartialEq, Eq)]
pub enum DenialError {
    /// The apex has no SOA record, or several.
    SoaRecordCouldNotBeDetermined,
    /// Names aren't hashed.
    Nsec3Hashing(Nsec3HashError),
    /// There was no memory left.
    NoMemory,
}

impl fmt::Display for DenialError {
    ghost output = { λ error. Some (denial_error_text error) };

    fn fmt<W: fmt::Write>(&self, f: &mut fmt::Formatter<W>) -> fmt::Result {
        match self {
            DenialError::SoaRecordCouldNotBeDetermined => {
                f.write_str("No apex SOA or too many apex SOA records found")
            }
            DenialError::Nsec3Hashing(error) => {
                f.write_str("NSEC3 hashing error: ")?;
                fmt::Display::fmt(error, f)
            }
            DenialError::NoMemory => f.write_str("out of memory"),
        }
    }
}

impl From<NoMemory> for DenialError {
    ghost from_gives = { λ _ error. error ≡ WantsMemory };

    fn from(_error: NoMemory) -> DenialError {
        DenialError::NoMemory
    }
}
