//! How errors compare, as the clauses of functions.

ghost use Rattle.std.specs.Prelude.{◌≡◌, ◌↔◌, IsTrue};

use crate::error::ReadError;

/// `==` on errors of words is equality.
pub fn law_of_equal_read_errors(error: ReadError, other: ReadError) -> bool
    ensures { IsTrue result ↔ (error ≡ other) }
{
    error == other
}
