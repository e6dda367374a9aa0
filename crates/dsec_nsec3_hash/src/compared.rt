//! How errors compare, as the clauses of functions.

ghost use Rattle.std.specs.Prelude.{◌≡◌, ◌↔◌, IsTrue};

use crate::error::LabelToHashError;

/// `==` on errors of labels is equality.
pub fn law_of_equal_label_errors(error: LabelToHashError, other: LabelToHashError) -> bool
    ensures { IsTrue result ↔ (error ≡ other) }
{
    error == other
}
