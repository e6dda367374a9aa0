//! The algorithms of keys, of DS digests and of NSEC3 hashes.

ghost use Rattle.std.specs.Prelude.{◌≡◌};

use std::marker::Model;

/// The algorithm of a key and its signatures (RFC 4034 A.1).
#[derive(Clone, Copy, Debug, PartialEq, Eq, PartialOrd, Ord, Hash)]
pub struct SecurityAlgorithm {
    number: u8,
}

impl Model for SecurityAlgorithm {
    ghost use Rattle.std.specs.Prelude.{ℕ};

    ghost Value = { ℕ };

    ghost view = { λ it. it.number };

    ghost inverse = { λ n. record { number = n } };
}

impl SecurityAlgorithm {
    /// RSA/MD5 (RFC 4034 A.1).
    pub const RSAMD5: SecurityAlgorithm = SecurityAlgorithm { number: 1 };

    /// RSA/SHA-1 (RFC 3110).
    pub const RSASHA1: SecurityAlgorithm = SecurityAlgorithm { number: 5 };

    /// RSA/SHA-1, of a zone that may use NSEC3 (RFC 5155 2).
    pub const RSASHA1_NSEC3_SHA1: SecurityAlgorithm = SecurityAlgorithm { number: 7 };

    /// RSA/SHA-256 (RFC 5702).
    pub const RSASHA256: SecurityAlgorithm = SecurityAlgorithm { number: 8 };

    /// RSA/SHA-512 (RFC 5702).
    pub const RSASHA512: SecurityAlgorithm = SecurityAlgorithm { number: 10 };

    /// ECDSA P-256 with SHA-256 (RFC 6605).
    pub const ECDSAP256SHA256: SecurityAlgorithm = SecurityAlgorithm { number: 13 };

    /// ECDSA P-384 with SHA-384 (RFC 6605).
    pub const ECDSAP384SHA384: SecurityAlgorithm = SecurityAlgorithm { number: 14 };

    /// Ed25519 (RFC 8080).
    pub const ED25519: SecurityAlgorithm = SecurityAlgorithm { number: 15 };

    /// Ed448 (RFC 8080).
    pub const ED448: SecurityAlgorithm = SecurityAlgorithm { number: 16 };

    /// The algorithm of this number.
    pub const fn from_int(number: u8) -> Self
        ensures { result ≡ number }
    {
        SecurityAlgorithm { number }
    }

    /// The algorithm's number.
    pub const fn to_int(self) -> u8
        ensures { result ≡ self }
    {
        self.number
    }
}

/// The digest that a DS record has (RFC 4034 A.2).
#[derive(Clone, Copy, Debug, PartialEq, Eq, PartialOrd, Ord, Hash)]
pub struct DigestAlgorithm {
    number: u8,
}

impl Model for DigestAlgorithm {
    ghost use Rattle.std.specs.Prelude.{ℕ};

    ghost Value = { ℕ };

    ghost view = { λ it. it.number };

    ghost inverse = { λ n. record { number = n } };
}

impl DigestAlgorithm {
    /// SHA-1 (RFC 4034 A.2).
    pub const SHA1: DigestAlgorithm = DigestAlgorithm { number: 1 };

    /// SHA-256 (RFC 4509).
    pub const SHA256: DigestAlgorithm = DigestAlgorithm { number: 2 };

    /// GOST R 34.11-94 (RFC 5933).
    pub const GOST: DigestAlgorithm = DigestAlgorithm { number: 3 };

    /// SHA-384 (RFC 6605).
    pub const SHA384: DigestAlgorithm = DigestAlgorithm { number: 4 };

    /// The digest of this number.
    pub const fn from_int(number: u8) -> Self
        ensures { result ≡ number }
    {
        DigestAlgorithm { number }
    }

    /// The digest's number.
    pub const fn to_int(self) -> u8
        ensures { result ≡ self }
    {
        self.number
    }
}

/// The hash of NSEC3 records (RFC 5155 11).
#[derive(Clone, Copy, Debug, PartialEq, Eq, PartialOrd, Ord, Hash)]
pub struct Nsec3HashAlgorithm {
    number: u8,
}

impl Model for Nsec3HashAlgorithm {
    ghost use Rattle.std.specs.Prelude.{ℕ};

    ghost Value = { ℕ };

    ghost view = { λ it. it.number };

    ghost inverse = { λ n. record { number = n } };
}

impl Nsec3HashAlgorithm {
    /// SHA-1, the one that is defined (RFC 5155 11).
    pub const SHA1: Nsec3HashAlgorithm = Nsec3HashAlgorithm { number: 1 };

    /// The hash of this number.
    pub const fn from_int(number: u8) -> Self
        ensures { result ≡ number }
    {
        Nsec3HashAlgorithm { number }
    }

    /// The hash's number.
    pub const fn to_int(self) -> u8
        ensures { result ≡ self }
    {
        self.number
    }
}
