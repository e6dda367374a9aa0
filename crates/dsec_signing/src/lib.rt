//! The command `sign`: its words, the zone text that it reads, and what it writes.
#![tactic(auto)]

mod command;
mod compared;
mod error;
mod key_set;
mod making;
mod words;
mod zone;

pub use command::sign;
pub use compared::{
    law_of_equal_denials, law_of_equal_refused_lines, law_of_equal_source_errors,
    law_of_equal_unsigned, law_of_equal_words,
};
pub use error::{Refused, SourceError, Unsigned, Word};
pub use words::{Denial, SignWords, sign_words};
pub use zone::{MOST_RECORDS, read_zone};
