//! Digests of keys, as DS records have them (RFC 4034 5.1.4).

ghost use Rattle.std.specs.Prelude.{◌≡◌, ◌++◌, Err, Ok};
ghost use Rattle.std.specs.Option.{ok_or};
ghost use Rattle.dsec_crypto.specs.Digest.{digest_of, octets_of};
ghost use Rattle.dsec_crypto.specs.declared.error.AlgorithmError.TheVariants.{Unsupported};
ghost use Rattle.dsec_spec.specs.Digests.{digest_by};
ghost use Rattle.dsec_spec.specs.Names.{canonical_octets};
ghost use Rattle.dsec_spec.specs.Reading.{Gives};
ghost use Rattle.dsec_spec.specs.Records.{key_octets};
ghost use Rattle.dsec_wire.specs.Views.{key_view};
ghost use Rattle.dsec_link.specs.KeyDigests.{never, type_of};

use dsec_crypto::{AlgorithmError, Digest, DigestBuilder, DigestType};
use dsec_name::Name;
use dsec_number::DigestAlgorithm;
use dsec_wire::Dnskey;

/// The digest of the owner's canonical name and the key's data under a DS record's digest type.
pub(crate) fn key_digest(
    key: &Dnskey<'_>,
    owner: &Name,
    algorithm: DigestAlgorithm,
) -> Result<Digest, AlgorithmError>
    ensures { Gives never octets_of result
        (ok_or (digest_by algorithm (canonical_octets owner.now ++ key_octets (key_view key.now))) Unsupported) }
{
    match digest_type(algorithm) {
        Some(digest_type) => Ok(digest_under(digest_type, key, owner)),
        None => Err(AlgorithmError::Unsupported),
    }
}

/// The digests that the number stands for (RFC 4034 A.2, RFC 4509 5, RFC 6605 2).
fn digest_type(algorithm: DigestAlgorithm) -> Option<DigestType>
    ensures { result ≡ type_of algorithm }
{
    match algorithm.to_int() {
        1 => Some(DigestType::Sha1),
        2 => Some(DigestType::Sha256),
        4 => Some(DigestType::Sha384),
        _ => None,
    }
}

/// The digest of one type.
fn digest_under(digest_type: DigestType, key: &Dnskey<'_>, owner: &Name) -> Digest
    ensures { result ≡ digest_of digest_type (canonical_octets owner.now ++ key_octets (key_view key.now)) }
{
    let mut builder = DigestBuilder::new(digest_type);
    builder.update(owner.canonical_octets().as_slice());
    builder.update(&key.flags.to_be_bytes());
    builder.update(&[key.protocol, key.algorithm.to_int()]);
    builder.update(key.public_key);
    builder.finish()
}
