//! Why a set or a zone isn't signed.

ghost use Rattle.std.specs.Prelude.{◌≡◌, IsOk, Some};
ghost use Rattle.std.specs.Fmt.{HasWritten, IsPlainFormatter};
ghost use Rattle.dsec_rrsig.specs.declared.error.SignError.TheVariants as sign;
ghost use Rattle.dsec_rrsig.specs.declared.error.SigningError.TheVariants as signing;
ghost use Rattle.dsec_rrsig.specs.Errors.{expiration_text, inception_text, of_denial_error, of_hash_error, of_rrset_error, of_sign_error, period_error_text, sign_error_text, signing_error_text};

use dsec_chain::{DenialError, Nsec3HashError};
use dsec_name::NoMemory;
use dsec_number::Timestamp;
use dsec_sorted::RrsetError;
use std::alloc::{AllocError, AllocFailed};
use std::fmt;

/// Why a signer gives no signature.
#[derive(Clone, Copy, Debug, PartialEq, Eq)]
pub enum SignError {
    /// The signer failed; its count of faults rose in the call.
    Failed,
    /// There was no memory left.
    NoMemory,
}

impl fmt::Display for SignError {
    ghost output = { λ error. Some (sign_error_text error) };

    fn fmt<W: fmt::Write>(&self, f: &mut fmt::Formatter<W>) -> fmt::Result {
        f.write_str(match self {
            SignError::Failed => "signing failed",
            SignError::NoMemory => "out of memory",
        })
    }
}

impl From<AllocError> for SignError {
    ghost from_gives = { λ _ error. error ≡ sign.NoMemory };

    fn from(_error: AllocError) -> SignError {
        SignError::NoMemory
    }
}

impl<T: Drop> From<AllocFailed<T>> for SignError {
    ghost from_gives = { λ _ error. error ≡ sign.NoMemory };

    fn from(_error: AllocFailed<T>) -> SignError {
        SignError::NoMemory
    }
}

impl From<NoMemory> for SignError {
    ghost from_gives = { λ _ error. error ≡ sign.NoMemory };

    fn from(_error: NoMemory) -> SignError {
        SignError::NoMemory
    }
}

/// Why a set or a zone isn't signed.
#[derive(Clone, Copy, Debug, PartialEq, Eq)]
pub enum SigningError {
    /// A key has no period; this never comes.
    NoSignatureValidityPeriodProvided,
    /// There was no memory left.
    OutOfMemory,
    /// A chain of denial is asked for, and the apex has no SOA record, or several.
    SoaRecordCouldNotBeDetermined,
    /// There is no record.
    EmptyRecordSlice,
    /// The records of a set differ in TTL (RFC 2181 5.2).
    MultipleTtlValues,
    /// Names aren't hashed for an NSEC3 chain.
    Nsec3HashingError(Nsec3HashError),
    /// Signatures aren't signed (RFC 4035 2.2).
    RrsigRrsMustNotBeSigned,
    /// The period, given by inception and expiration, has 2^31 seconds or more (RFC 4034 3.1.5).
    InvalidSignatureValidityPeriod(Timestamp, Timestamp),
    /// A signer failed; want of memory isn't told by this.
    SigningError(SignError),
}

impl fmt::Display for SigningError {
    ghost output = { λ error. Some (signing_error_text error) };

    fn fmt<W: fmt::Write>(&self, f: &mut fmt::Formatter<W>) -> fmt::Result {
        match self {
            SigningError::NoSignatureValidityPeriodProvided => {
                f.write_str("No signature validity period found for key")
            }
            SigningError::OutOfMemory => f.write_str("Out of memory"),
            SigningError::SoaRecordCouldNotBeDetermined => {
                f.write_str("No apex SOA or too many apex SOA records found")
            }
            SigningError::EmptyRecordSlice => f.write_str("Empty slice of Record"),
            SigningError::MultipleTtlValues => f.write_str("Multiple TTL values in RRset"),
            SigningError::Nsec3HashingError(error) => write!(f, "NSEC3 hashing error: {error}"),
            SigningError::RrsigRrsMustNotBeSigned => {
                f.write_str("RFC 4035 violation: RRSIG RRs MUST NOT be signed")
            }
            SigningError::InvalidSignatureValidityPeriod(inception, expiration) => {
                write_period(f, inception, expiration)
            }
            SigningError::SigningError(error) => write!(f, "Signing error: {error}"),
        }
    }
}

/// Writes that a period isn't one.
fn write_period<W: fmt::Write>(
    f: &mut fmt::Formatter<W>,
    inception: &Timestamp,
    expiration: &Timestamp,
) -> fmt::Result
    ensures writes { IsPlainFormatter f.old → IsOk result → HasWritten W.write_str_gives f.old (period_error_text inception.now expiration.now) f.new }
{
    write_inception(f, inception)?;
    write_expiration(f, expiration)
}

/// The first half of that.
fn write_inception<W: fmt::Write>(f: &mut fmt::Formatter<W>, inception: &Timestamp) -> fmt::Result
    ensures writes { IsPlainFormatter f.old → IsOk result → HasWritten W.write_str_gives f.old (inception_text inception.now) f.new }
{
    write!(f, "RFC 4034 violation: RRSIG validity period ({inception}")
}

/// The second half.
fn write_expiration<W: fmt::Write>(f: &mut fmt::Formatter<W>, expiration: &Timestamp) -> fmt::Result
    ensures writes { IsPlainFormatter f.old → IsOk result → HasWritten W.write_str_gives f.old (expiration_text expiration.now) f.new }
{
    write!(f, " <= {expiration}) is invalid")
}

impl From<NoMemory> for SigningError {
    ghost from_gives = { λ _ error. error ≡ signing.OutOfMemory };

    fn from(_error: NoMemory) -> SigningError {
        SigningError::OutOfMemory
    }
}

impl From<AllocError> for SigningError {
    ghost from_gives = { λ _ error. error ≡ signing.OutOfMemory };

    fn from(_error: AllocError) -> SigningError {
        SigningError::OutOfMemory
    }
}

impl<T: Drop> From<AllocFailed<T>> for SigningError {
    ghost from_gives = { λ _ error. error ≡ signing.OutOfMemory };

    fn from(_error: AllocFailed<T>) -> SigningError {
        SigningError::OutOfMemory
    }
}

impl From<SignError> for SigningError {
    ghost from_gives = { λ cause error. error ≡ of_sign_error cause };

    fn from(cause: SignError) -> SigningError {
        match cause {
            SignError::Failed => SigningError::SigningError(cause),
            SignError::NoMemory => SigningError::OutOfMemory,
        }
    }
}

impl From<Nsec3HashError> for SigningError {
    ghost from_gives = { λ cause error. error ≡ of_hash_error cause };

    fn from(cause: Nsec3HashError) -> SigningError {
        match cause {
            Nsec3HashError::AppendError => SigningError::OutOfMemory,
            _ => SigningError::Nsec3HashingError(cause),
        }
    }
}

impl From<DenialError> for SigningError {
    ghost from_gives = { λ cause error. error ≡ of_denial_error cause };

    fn from(cause: DenialError) -> SigningError {
        match cause {
            DenialError::SoaRecordCouldNotBeDetermined => {
                SigningError::SoaRecordCouldNotBeDetermined
            }
            DenialError::Nsec3Hashing(error) => SigningError::from(error),
            DenialError::NoMemory => SigningError::OutOfMemory,
        }
    }
}

impl From<RrsetError> for SigningError {
    ghost from_gives = { λ cause error. error ≡ of_rrset_error cause };

    fn from(cause: RrsetError) -> SigningError {
        match cause {
            RrsetError::EmptyRecordSlice => SigningError::EmptyRecordSlice,
            RrsetError::MultipleTtlValues => SigningError::MultipleTtlValues,
        }
    }
}
