//! How errors compare, as the clauses of functions.

ghost use Rattle.std.specs.Prelude.{◌≡◌, ◌↔◌, IsTrue};

use crate::error::PushError;

/// `==` on errors of what is pushed is equality.
pub fn law_of_equal_push_errors(error: PushError, other: PushError) -> bool
    ensures { IsTrue result ↔ (error ≡ other) }
{
    error == other
}
