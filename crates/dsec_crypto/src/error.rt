//! Why a signature isn't good, and why a DNSKEY record's key can't be used.

use thiserror::Error;

/// Why a verifier refuses a signature.
#[derive(Clone, Copy, Debug, PartialEq, Eq, Error)]
pub enum AlgorithmError {
    /// The verifier doesn't know the key's algorithm.
    #[error("unsupported algorithm")]
    Unsupported,
    /// The signature isn't the key's over the message.
    #[error("bad signature")]
    BadSig,
    /// The key or the signature isn't of the algorithm's form.
    #[error("invalid data")]
    InvalidData,
}

/// Why no key can be made of a DNSKEY record's data (RFC 4034 2.1).
#[derive(Clone, Copy, Debug, PartialEq, Eq, Error)]
pub enum FromDnskeyError {
    /// The algorithm isn't one that is known here.
    #[error("unsupported algorithm")]
    UnsupportedAlgorithm,
    /// The protocol isn't 3 (RFC 4034 2.1.2).
    #[error("unsupported protocol")]
    UnsupportedProtocol,
    /// The key's octets aren't of the algorithm's form.
    #[error("malformed key")]
    InvalidKey,
}
