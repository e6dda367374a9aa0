//! How values compare, as the clauses of functions.

ghost use Rattle.std.specs.Prelude.{◌≡◌, ◌↔◌, IsTrue};

use crate::admit::Admission;

/// `==` on admissions is equality.
pub fn law_of_equal_admissions(admission: Admission, other: Admission) -> bool
    ensures { IsTrue result ↔ (admission ≡ other) }
{
    admission == other
}
