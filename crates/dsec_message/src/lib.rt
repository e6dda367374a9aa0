//! Messages: the header, the sections one after the other, and the OPT record (RFC 1035 4.1, RFC 6891).
#![tactic(auto)]

mod compared;
mod error;
mod header;
mod message;
mod opt;
mod sections;

pub use compared::law_of_equal_short_messages;
pub use error::ShortMessage;
pub use header::{Header, law_of_equal_headers, law_of_flags};
pub use message::Message;
pub use sections::Sections;
