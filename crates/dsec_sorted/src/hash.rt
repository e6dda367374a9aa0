//! Hashes of owners, and what is added to names that are hashed (RFC 5155 3.1.5, 3.1.7).

ghost use Rattle.std.specs.Prelude.{◌≡◌, ◌↔◌, ◌<◌, ◌≤◌, [], length, IfOk, IsErr};

use arrayvec::ArrayVec;
use std::marker::Model;
use thiserror::Error;

/// The octets that a length octet counts at most.
const MAX_STRING: usize = 255;

/// The hash of an owner, at most 255 octets. A clause sees its octets.
#[derive(Drop)]
pub struct OwnerHash {
    octets: ArrayVec<u8, MAX_STRING>,
}

/// The octets are too many for a hash.
#[derive(Clone, Copy, Debug, PartialEq, Eq, Error)]
#[error("OwnerHashError")]
pub struct OwnerHashError;

impl Model for OwnerHash {
    ghost use Rattle.std.specs.Prelude.{List, ℕ};

    ghost Value = { List ℕ };

    ghost view = { λ it. it.octets.items };
}

impl OwnerHash {
    /// The hash of these octets, copied; no memory is taken.
    pub fn from_octets(octets: &[u8]) -> Result<Self, OwnerHashError>
        ensures made { IfOk result (λ hash. hash ≡ octets.now) }
        ensures long { IsErr result ↔ (255 < length octets.now) }
    {
        match ArrayVec::<u8, MAX_STRING>::try_from(octets) {
            Ok(octets) => Ok(OwnerHash { octets }),
            Err(_) => Err(OwnerHashError),
        }
    }

    /// The octets of the hash.
    pub fn as_slice(&self) -> &[u8]
        ensures value { result.now ≡ self.now }
        ensures short { length result.now ≤ 255 }
    {
        self.octets.as_slice()
    }
}

/// What is added to each name that is hashed, at most 255 octets. A clause sees its octets.
#[derive(Drop)]
pub struct Nsec3Salt {
    octets: ArrayVec<u8, MAX_STRING>,
}

/// The octets are too many for a salt.
#[derive(Clone, Copy, Debug, PartialEq, Eq, Error)]
#[error("Nsec3SaltError")]
pub struct Nsec3SaltError;

impl Model for Nsec3Salt {
    ghost use Rattle.std.specs.Prelude.{List, ℕ};

    ghost Value = { List ℕ };

    ghost view = { λ it. it.octets.items };
}

impl Nsec3Salt {
    /// No octets.
    pub fn empty() -> Self
        ensures { result ≡ [] }
    {
        Nsec3Salt {
            octets: ArrayVec::<u8, MAX_STRING>::new(),
        }
    }

    /// The salt of these octets, copied; no memory is taken.
    pub fn from_octets(octets: &[u8]) -> Result<Self, Nsec3SaltError>
        ensures made { IfOk result (λ salt. salt ≡ octets.now) }
        ensures long { IsErr result ↔ (255 < length octets.now) }
    {
        match ArrayVec::<u8, MAX_STRING>::try_from(octets) {
            Ok(octets) => Ok(Nsec3Salt { octets }),
            Err(_) => Err(Nsec3SaltError),
        }
    }

    /// The octets of the salt.
    pub fn as_slice(&self) -> &[u8]
        ensures value { result.now ≡ self.now }
        ensures short { length result.now ≤ 255 }
    {
        self.octets.as_slice()
    }
}
