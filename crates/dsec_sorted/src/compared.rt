//! How errors compare, as the clauses of functions.

ghost use Rattle.std.specs.Prelude.{◌≡◌, ◌↔◌, IsTrue};

use crate::hash::{Nsec3SaltError, OwnerHashError};
use crate::rrset::RrsetError;

/// `==` on errors of owners' hashes is equality.
pub fn law_of_equal_owner_hash_errors(error: OwnerHashError, other: OwnerHashError) -> bool
    ensures { IsTrue result ↔ (error ≡ other) }
{
    error == other
}

/// `==` on errors of salts is equality.
pub fn law_of_equal_salt_errors(error: Nsec3SaltError, other: Nsec3SaltError) -> bool
    ensures { IsTrue result ↔ (error ≡ other) }
{
    error == other
}

/// `==` on errors of record sets is equality.
pub fn law_of_equal_rrset_errors(error: RrsetError, other: RrsetError) -> bool
    ensures { IsTrue result ↔ (error ≡ other) }
{
    error == other
}
