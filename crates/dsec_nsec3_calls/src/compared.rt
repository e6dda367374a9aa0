//! How values compare, as the clauses of functions.

ghost use Rattle.std.specs.Prelude.{◌≡◌, ◌↔◌, IsTrue};

use crate::state::{Nsec3NXStateNoCE, Nsec3State};

/// `==` on states of denial by NSEC3 is equality.
pub fn law_of_equal_nsec3_states(state: Nsec3State, other: Nsec3State) -> bool
    ensures { IsTrue result ↔ (state ≡ other) }
{
    state == other
}

/// `==` on states of a name that NSEC3 records cover is equality.
pub fn law_of_equal_nsec3_cover_states(state: Nsec3NXStateNoCE, other: Nsec3NXStateNoCE) -> bool
    ensures { IsTrue result ↔ (state ≡ other) }
{
    state == other
}
