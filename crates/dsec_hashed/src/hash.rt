//! The hash of a name (RFC 5155 5).

ghost use Rattle.std.specs.Prelude.{◌≡◌, ◌≢◌, ◌↔◌, [], IfErr, IfOk, IsErr};
ghost use Rattle.dsec_spec.specs.Digests.{iterated_hash};
ghost use Rattle.dsec_spec.specs.Names.{canonical_octets, place};
ghost use Rattle.dsec_spec.specs.DenyingRecords.{hash_by};
ghost use Rattle.dsec_hashed.specs.Config.{hashing_of};

use dsec_chain::Nsec3HashError;
use dsec_crypto::ih;
use dsec_name::Name;
use dsec_number::Nsec3HashAlgorithm;
use dsec_sorted::{Nsec3Config, Nsec3Salt, OwnerHash};

/// The hash of a name, by an algorithm, of which there is SHA-1 alone: `iterations` is how often the hash is taken again after the first
/// time. No memory is taken.
pub fn nsec3_hash(
    owner: &Name,
    algorithm: Nsec3HashAlgorithm,
    iterations: u16,
    salt: &Nsec3Salt,
) -> Result<OwnerHash, Nsec3HashError>
    ensures hash { IfOk result (λ hash. hash ≡ iterated_hash salt.now (canonical_octets owner.now) iterations) }
    ensures refused { IsErr result ↔ (algorithm ≢ 1) }
    ensures error { IfErr result (λ e. e ≡ Nsec3HashError.UnsupportedAlgorithm) }
{
    if algorithm != Nsec3HashAlgorithm::SHA1 {
        return Err(Nsec3HashError::UnsupportedAlgorithm);
    }
    Ok(owner_hash(&ih(&owner.canonical_octets(), salt.as_slice(), iterations)))
}

/// The hash of a name by SHA-1, without a salt and taken once, as RFC 9276 3.1 asks of zones. No memory is taken.
pub fn nsec3_default_hash(owner: &Name) -> OwnerHash
    ensures { result ≡ iterated_hash [] (canonical_octets owner.now) 0 }
{
    owner_hash(&ih(&owner.canonical_octets(), &[], 0))
}

/// These octets as the hash of an owner.
fn owner_hash(octets: &[u8; 20]) -> OwnerHash
    ensures { result ≡ octets.now }
{
    OwnerHash::from_octets(octets).unwrap()
}

/// A name's hash in a zone.
pub(crate) fn hash_in(name: &Name, config: &Nsec3Config) -> [u8; 20]
    ensures { result ≡ hash_by (hashing_of config.now) (place name.now) }
{
    ih(
        &name.canonical_octets(),
        config.salt.as_slice(),
        config.iterations,
    )
}
