//! How errors compare, as the clauses of functions.

ghost use Rattle.std.specs.Prelude.{◌≡◌, ◌↔◌, IsTrue};

use crate::error::AnchorError;

/// `==` on errors of anchors is equality.
pub fn law_of_equal_anchor_errors(error: AnchorError, other: AnchorError) -> bool
    ensures { IsTrue result ↔ (error ≡ other) }
{
    error == other
}
