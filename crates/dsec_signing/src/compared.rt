//! How values compare, as the clauses of functions.

ghost use Rattle.std.specs.Prelude.{◌≡◌, ◌↔◌, IsTrue};

use crate::error::{Refused, SourceError, Unsigned, Word};
use crate::words::Denial;

/// `==` on words of refused lines is equality.
pub fn law_of_equal_words(word: Word, other: Word) -> bool
    ensures { IsTrue result ↔ (word ≡ other) }
{
    word == other
}

/// `==` on refused lines is equality.
pub fn law_of_equal_refused_lines(refused: Refused, other: Refused) -> bool
    ensures { IsTrue result ↔ (refused ≡ other) }
{
    refused == other
}

/// `==` on errors of a source is equality.
pub fn law_of_equal_source_errors(error: SourceError, other: SourceError) -> bool
    ensures { IsTrue result ↔ (error ≡ other) }
{
    error == other
}

/// `==` on reasons why a zone isn't signed is equality.
pub fn law_of_equal_unsigned(unsigned: Unsigned, other: Unsigned) -> bool
    ensures { IsTrue result ↔ (unsigned ≡ other) }
{
    unsigned == other
}

/// `==` on kinds of denial is equality.
pub fn law_of_equal_denials(denial: Denial, other: Denial) -> bool
    ensures { IsTrue result ↔ (denial ≡ other) }
{
    denial == other
}
