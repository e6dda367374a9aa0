//! How values compare, as the clauses of functions.

ghost use Rattle.std.specs.Prelude.{◌≡◌, ◌↔◌, IsTrue};

use crate::bounds::Bounds;
use crate::standing::Ground;

/// `==` on grounds is equality.
pub fn law_of_equal_grounds(ground: Ground, other: Ground) -> bool
    ensures { IsTrue result ↔ (ground ≡ other) }
{
    ground == other
}

/// `==` on bounds is equality.
pub fn law_of_equal_bounds(bounds: Bounds, other: Bounds) -> bool
    ensures { IsTrue result ↔ (bounds ≡ other) }
{
    bounds == other
}
