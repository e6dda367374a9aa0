//! How values compare, as the clauses of functions.

ghost use Rattle.std.specs.Prelude.{◌≡◌, ◌↔◌, IsTrue};

use crate::finding::{DsFinding, SignedAt};

/// `==` on what is signed at a name is equality.
pub fn law_of_equal_signed_places(place: SignedAt, other: SignedAt) -> bool
    ensures { IsTrue result ↔ (place ≡ other) }
{
    place == other
}

/// `==` on findings is equality.
pub fn law_of_equal_ds_findings(finding: DsFinding, other: DsFinding) -> bool
    ensures { IsTrue result ↔ (finding ≡ other) }
{
    finding == other
}
