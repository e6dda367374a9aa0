//! What single words say: numbers, names, types, classes, and octets in hex and base64.
#![tactic(auto)]

mod compared;
mod digits;
mod error;
mod word;
mod written;

pub use compared::law_of_equal_read_errors;
pub use digits::number;
pub use error::ReadError;
pub use word::{is_word, read_base64, read_class, read_hex, read_name, read_rtype};
pub use written::{push_hex, push_name, push_number};
