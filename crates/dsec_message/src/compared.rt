//! How values compare, as the clauses of functions.

ghost use Rattle.std.specs.Prelude.{◌≡◌, ◌↔◌, IsTrue};

use crate::error::ShortMessage;

/// `==` on errors of short messages is equality.
pub fn law_of_equal_short_messages(error: ShortMessage, other: ShortMessage) -> bool
    ensures { IsTrue result ↔ (error ≡ other) }
{
    error == other
}
