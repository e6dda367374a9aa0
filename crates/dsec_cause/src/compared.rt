//! How values compare, as the clauses of functions.

ghost use Rattle.std.specs.Prelude.{◌≡◌, ◌↔◌, IsTrue};

use crate::cause::Cause;

/// `==` on causes is equality.
pub fn law_of_equal_causes(cause: Cause, other: Cause) -> bool
    ensures { IsTrue result ↔ (cause ≡ other) }
{
    cause == other
}
