//! How errors compare, as the clauses of functions.

ghost use Rattle.std.specs.Prelude.{◌≡◌, ◌↔◌, IsTrue};

use crate::error::{InplaceError, ZonefileError};

/// `==` on errors of zone text's words is equality.
pub fn law_of_equal_inplace_errors(error: InplaceError, other: InplaceError) -> bool
    ensures { IsTrue result ↔ (error ≡ other) }
{
    error == other
}

/// `==` on errors of zone text is equality.
pub fn law_of_equal_zonefile_errors(error: ZonefileError, other: ZonefileError) -> bool
    ensures { IsTrue result ↔ (error ≡ other) }
{
    error == other
}
