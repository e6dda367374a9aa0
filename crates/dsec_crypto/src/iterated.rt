//! The hash that NSEC3 names owners by (RFC 5155 5).

ghost use Rattle.std.specs.Prelude.{◌≡◌, ◌++◌};
ghost use Rattle.sha1.specs.Sha1.{sha1};
ghost use Rattle.dsec_spec.specs.Digests.{iterated_hash};

use sha1::Sha1;

// One turn: IH(salt, x, 0).
fn salted_hash(octets: &[u8], salt: &[u8]) -> [u8; 20]
    ensures { result ≡ sha1 (octets.now ++ salt.now) }
{
    let mut hasher = Sha1::new();
    hasher.update(octets);
    hasher.update(salt);
    hasher.finalize()
}

/// IH(salt, x, k) of RFC 5155 5, with SHA-1 as H: `octets` is x, for a name its canonical octets, and
/// `iterations` is k, how often the hash is taken again after the first time.
#[tactic(auto, unfolding(dsec_spec::specs::Digests::iterated_hash))]
pub fn ih(octets: &[u8], salt: &[u8], iterations: u16) -> [u8; 20]
    ensures { result ≡ iterated_hash salt.now octets.now iterations }
{
    let mut hash = salted_hash(octets, salt);
    for _ in 0..iterations {
        hash = salted_hash(&hash, salt);
    }
    hash
}
