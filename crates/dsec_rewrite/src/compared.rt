//! How errors compare, as the clauses of functions.

ghost use Rattle.std.specs.Prelude.{◌≡◌, ◌↔◌, IsTrue};

use crate::error::RewriteError;

/// `==` on errors of rewriting is equality.
pub fn law_of_equal_rewrite_errors(error: RewriteError, other: RewriteError) -> bool
    ensures { IsTrue result ↔ (error ≡ other) }
{
    error == other
}
