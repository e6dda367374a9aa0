//! How errors compare, as the clauses of functions.

ghost use Rattle.std.specs.Prelude.{◌≡◌, ◌↔◌, IsTrue};

use crate::error::{DenialError, Nsec3HashError};

/// `==` on errors of hashing is equality.
pub fn law_of_equal_hash_errors(error: Nsec3HashError, other: Nsec3HashError) -> bool
    ensures { IsTrue result ↔ (error ≡ other) }
{
    error == other
}

/// `==` on errors of chains is equality.
pub fn law_of_equal_denial_errors(error: DenialError, other: DenialError) -> bool
    ensures { IsTrue result ↔ (error ≡ other) }
{
    error == other
}
