//! Digests of octets that come in pieces: SHA-1, SHA-256 and SHA-384 (FIPS 180-4).

ghost use Rattle.std.specs.Prelude.{◌≡◌, ℕ, List, [], ◌++◌, Some};
ghost use Rattle.dsec_spec.specs.Digests.{digest_by};

use sha1::Sha1;
use sha2::{Digest as Sha2Digest, Sha256, Sha384};
use std::convert::AsSlice;

/// The digests that a DS record may have (RFC 4034 A.2, RFC 4509, RFC 6605).
#[derive(Clone, Copy, Debug, PartialEq, Eq)]
pub enum DigestType {
    /// SHA-1, digest type 1.
    Sha1,
    /// SHA-256, digest type 2.
    Sha256,
    /// SHA-384, digest type 4.
    Sha384,
}

#[derive(Drop)]
enum Hasher {
    Sha1(Sha1),
    Sha256(Sha256),
    Sha384(Sha384),
}

/// A digest of octets that come in any pieces.
#[derive(Drop)]
pub struct DigestBuilder {
    hasher: Hasher,
}

impl DigestBuilder {
    ghost use Rattle.dsec_crypto.specs.Digest.{Holds, number_of, digest_of, octets_of};

    /// A builder that has taken no octets.
    pub fn new(digest_type: DigestType) -> Self
        ensures { Holds result digest_type [] }
    {
        let hasher = match digest_type {
            DigestType::Sha1 => Hasher::Sha1(Sha1::new()),
            DigestType::Sha256 => Hasher::Sha256(Sha256::new()),
            DigestType::Sha384 => Hasher::Sha384(Sha384::new()),
        };
        DigestBuilder { hasher }
    }

    /// Takes further octets.
    pub fn update(&mut self, octets: &[u8])
        ensures { (digest_type : DigestType) (taken : List ℕ) → Holds self.old digest_type taken
            → Holds self.new digest_type (taken ++ octets.now) }
    {
        match &mut self.hasher {
            Hasher::Sha1(hasher) => hasher.update(octets),
            Hasher::Sha256(hasher) => hasher.update(octets),
            Hasher::Sha384(hasher) => hasher.update(octets),
        }
    }

    /// The digest of the octets that were taken.
    pub fn finish(self) -> Digest
        ensures value { (digest_type : DigestType) (taken : List ℕ) → Holds self digest_type taken
            → result ≡ digest_of digest_type taken }

        // The same, under the number that a DS record gives the digest type.
        ensures numbered { (digest_type : DigestType) (taken : List ℕ) → Holds self digest_type taken
            → digest_by (number_of digest_type) taken ≡ Some (octets_of result) }
    {
        match self.hasher {
            Hasher::Sha1(hasher) => Digest::Sha1(hasher.finalize()),
            Hasher::Sha256(hasher) => Digest::Sha256(hasher.finalize()),
            Hasher::Sha384(hasher) => Digest::Sha384(hasher.finalize()),
        }
    }
}

/// A digest, by its type.
#[derive(Clone, Copy, Debug, PartialEq, Eq)]
pub enum Digest {
    /// A SHA-1 digest.
    Sha1([u8; 20]),
    /// A SHA-256 digest.
    Sha256([u8; 32]),
    /// A SHA-384 digest.
    Sha384([u8; 48]),
}

impl Digest {
    ghost use Rattle.dsec_crypto.specs.Digest.{octets_of};

    /// The digest's octets, in the order of FIPS 180-4.
    pub fn as_ref(&self) -> &[u8]
        ensures { result.now ≡ octets_of self.now }
    {
        match self {
            Digest::Sha1(octets) => octets,
            Digest::Sha256(octets) => octets,
            Digest::Sha384(octets) => octets,
        }
    }
}

/// The same octets, for calls that take an `AsSlice<u8>`, as Rust's take an `AsRef<[u8]>`.
impl AsSlice<u8> for Digest {
    ghost use Rattle.dsec_crypto.specs.Digest.{octets_of};

    ghost items = { octets_of };

    fn as_slice(&self) -> &[u8] {
        self.as_ref()
    }
}
