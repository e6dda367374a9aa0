//! How values compare, as the clauses of functions.

ghost use Rattle.std.specs.Prelude.{◌≡◌, ◌↔◌, IsTrue};

use crate::line::{BadLine, LineError, Span};

/// `==` on spans is equality.
pub fn law_of_equal_spans(span: Span, other: Span) -> bool
    ensures { IsTrue result ↔ (span ≡ other) }
{
    span == other
}

/// `==` on bad lines is equality.
pub fn law_of_equal_bad_lines(line: BadLine, other: BadLine) -> bool
    ensures { IsTrue result ↔ (line ≡ other) }
{
    line == other
}

/// `==` on errors of lines is equality.
pub fn law_of_equal_line_errors(error: LineError, other: LineError) -> bool
    ensures { IsTrue result ↔ (error ≡ other) }
{
    error == other
}
