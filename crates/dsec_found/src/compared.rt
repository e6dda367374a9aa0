//! How errors compare, as the clauses of functions.

ghost use Rattle.std.specs.Prelude.{◌≡◌, ◌↔◌, IsTrue};

use crate::error::Error;

/// `==` on errors is equality.
pub fn law_of_equal_errors(error: Error, other: Error) -> bool
    ensures { IsTrue result ↔ (error ≡ other) }
{
    error == other
}
