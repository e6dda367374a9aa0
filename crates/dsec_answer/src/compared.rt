//! How values compare, as the clauses of functions.

ghost use Rattle.std.specs.Prelude.{◌≡◌, ◌↔◌, IsTrue};

use crate::outcome::Unjudged;

/// `==` on reasons why a message isn't judged is equality.
pub fn law_of_equal_unjudged(unjudged: Unjudged, other: Unjudged) -> bool
    ensures { IsTrue result ↔ (unjudged ≡ other) }
{
    unjudged == other
}
