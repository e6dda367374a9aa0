//! How values compare, as the clauses of functions.

ghost use Rattle.std.specs.Prelude.{◌≡◌, ◌↔◌, IsTrue};

use crate::digest::{Digest, DigestType};
use crate::error::{AlgorithmError, FromDnskeyError};

/// `==` on digest types is equality.
pub fn law_of_equal_digest_types(digest_type: DigestType, other: DigestType) -> bool
    ensures { IsTrue result ↔ (digest_type ≡ other) }
{
    digest_type == other
}

/// `==` on digests is equality.
pub fn law_of_equal_digests(digest: Digest, other: Digest) -> bool
    ensures { IsTrue result ↔ (digest ≡ other) }
{
    digest == other
}

/// `==` on a verifier's errors is equality.
pub fn law_of_equal_algorithm_errors(error: AlgorithmError, other: AlgorithmError) -> bool
    ensures { IsTrue result ↔ (error ≡ other) }
{
    error == other
}

/// `==` on errors of DNSKEY records is equality.
pub fn law_of_equal_dnskey_errors(error: FromDnskeyError, other: FromDnskeyError) -> bool
    ensures { IsTrue result ↔ (error ≡ other) }
{
    error == other
}
