//! How single values compare, as the clauses of functions.

ghost use Rattle.std.specs.Prelude.{◌≡◌, ◌↔◌, IsTrue};

use crate::error::{Refused, ScriptError, Word};

/// `==` on words of refused lines is equality.
pub fn law_of_equal_refused_words(word: Word, other: Word) -> bool
    ensures { IsTrue result ↔ (word ≡ other) }
{
    word == other
}

/// `==` on refused lines is equality.
pub fn law_of_equal_refused_lines(refused: Refused, other: Refused) -> bool
    ensures { IsTrue result ↔ (refused ≡ other) }
{
    refused == other
}

/// `==` on errors of scripts is equality.
pub fn law_of_equal_script_errors(error: ScriptError, other: ScriptError) -> bool
    ensures { IsTrue result ↔ (error ≡ other) }
{
    error == other
}
