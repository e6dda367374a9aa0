//! Zone text, from octets to words and lines (RFC 1035 5.1).
#![tactic(auto)]

mod compared;
mod escape;
mod laws;
mod line;
mod pass;
mod token;
mod word;

pub use compared::{law_of_equal_bad_lines, law_of_equal_line_errors, law_of_equal_spans};
pub use laws::{law_of_first_lines, law_of_lines, law_of_tokens, law_of_words};
pub use line::{BadLine, Found, Line, LineError, Span, first_line};
pub use word::Word;
