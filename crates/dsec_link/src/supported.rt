//! Which algorithms and digests a DS record may have here (RFC 4035 5.2).

ghost use Rattle.std.specs.Prelude.{◌≡◌};
ghost use Rattle.dsec_spec.specs.Algorithms.{is_supported_algorithm};
ghost use Rattle.dsec_spec.specs.Digests.{is_supported_digest};

use dsec_number::{DigestAlgorithm, SecurityAlgorithm};

/// Whether a DS record with this algorithm can be used. Which signatures are good is the verifier's to say.
pub fn supported_algorithm(algorithm: SecurityAlgorithm) -> bool
    ensures { result ≡ is_supported_algorithm algorithm }
{
    matches!(algorithm.to_int(), 5 | 7 | 8 | 10 | 13)
}

/// Whether a DS record with this digest can be used.
pub fn supported_digest(digest: DigestAlgorithm) -> bool
    ensures { result ≡ is_supported_digest digest }
{
    matches!(digest.to_int(), 1 | 2 | 4)
}
