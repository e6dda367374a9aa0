//! What a key is used for by those that vouch for it (RFC 4034 5.1.4).

ghost use Rattle.std.specs.Prelude.{◌≡◌, ◌++◌};
ghost use Rattle.std.specs.Option.{ok_or};
ghost use Rattle.dsec_crypto.specs.Digest.{octets_of};
ghost use Rattle.dsec_crypto.specs.declared.error.AlgorithmError.TheVariants.{Unsupported};
ghost use Rattle.dsec_spec.specs.Digests.{digest_by};
ghost use Rattle.dsec_spec.specs.KeySizes.{key_size};
ghost use Rattle.dsec_spec.specs.Names.{canonical_octets};
ghost use Rattle.dsec_spec.specs.Reading.{Gives};
ghost use Rattle.dsec_spec.specs.Records as records;
ghost use Rattle.dsec_spec.specs.Records.{key_octets};
ghost use Rattle.dsec_wire.specs.Views.{key_view};
ghost use Rattle.dsec_link.specs.KeyDigests.{never};
ghost use Rattle.dsec_link.specs.Sizes.{size_answer};

use crate::key_digest::key_digest;
use crate::key_size::bits_of;
use dsec_crypto::{AlgorithmError, Digest};
use dsec_name::Name;
use dsec_number::DigestAlgorithm;
use dsec_wire::Dnskey;

/// The digests of a key, and its size.
pub trait DnskeyExt {
    /// What the DNSKEY record says.
    ghost says: { Self → records.Key };

    /// The digest that a DS record has of the key: that of the owner's canonical name and the DNSKEY data
    /// (RFC 4034 5.1.4). `Unsupported` where the digests aren't SHA-1, SHA-256 or SHA-384.
    fn digest(&self, owner: &Name, algorithm: DigestAlgorithm) -> Result<Digest, AlgorithmError>
        ensures { Gives never octets_of result
            (ok_or (digest_by algorithm (canonical_octets owner.now ++ key_octets (says self.now))) Unsupported) };

    /// How many bits the key has: of RSA's keys the modulus, of ECDSA's one of the two numbers, of EdDSA's all its octets
    /// (RFC 3110 2, RFC 6605 4, RFC 8080 3). `InvalidData` where the octets aren't an RSA key, and `Unsupported` where
    /// the algorithm is none of these.
    fn key_size(&self) -> Result<usize, AlgorithmError>
        ensures { result ≡ size_answer (key_size (says self.now)) };
}

impl<'a> DnskeyExt for Dnskey<'a> {
    ghost says = { key_view };

    fn digest(&self, owner: &Name, algorithm: DigestAlgorithm) -> Result<Digest, AlgorithmError> {
        key_digest(self, owner, algorithm)
    }

    fn key_size(&self) -> Result<usize, AlgorithmError> {
        bits_of(self)
    }
}
