//! How values compare, as the clauses of functions.

ghost use Rattle.std.specs.Prelude.{◌≡◌, ◌↔◌, IsTrue};

use crate::state::NsecState;

/// `==` on states of denial by NSEC is equality.
pub fn law_of_equal_nsec_states(state: NsecState, other: NsecState) -> bool
    ensures { IsTrue result ↔ (state ≡ other) }
{
    state == other
}
