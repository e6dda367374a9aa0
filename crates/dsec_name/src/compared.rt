//! How values compare, as the clauses of functions.

ghost use Rattle.std.specs.Prelude.{◌≡◌, ◌↔◌, IsTrue};

use crate::error::{NameError, NoMemory};
use crate::push_name::PushNameError;

/// `==` on wants of memory is equality.
pub fn law_of_equal_wants(want: NoMemory, other: NoMemory) -> bool
    ensures { IsTrue result ↔ (want ≡ other) }
{
    want == other
}

/// `==` on errors of names is equality.
pub fn law_of_equal_name_errors(error: NameError, other: NameError) -> bool
    ensures { IsTrue result ↔ (error ≡ other) }
{
    error == other
}

/// `==` on errors of joined names is equality.
pub fn law_of_equal_push_name_errors(error: PushNameError, other: PushNameError) -> bool
    ensures { IsTrue result ↔ (error ≡ other) }
{
    error == other
}
