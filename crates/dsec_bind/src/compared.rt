//! How errors compare, as the clauses of functions.

ghost use Rattle.std.specs.Prelude.{◌≡◌, ◌↔◌, IsTrue};

use crate::error::ParseDnskeyTextError;

/// `==` on errors of keys' text is equality.
pub fn law_of_equal_key_text_errors(
    error: ParseDnskeyTextError,
    other: ParseDnskeyTextError,
) -> bool
    ensures { IsTrue result ↔ (error ≡ other) }
{
    error == other
}
