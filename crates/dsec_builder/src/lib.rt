//! Messages built item for item, uncompressed (RFC 1035 4.1).
#![tactic(auto)]

mod builder;
mod building;
mod compared;
mod error;
mod items;
mod laws;
mod octets;
mod sections;

pub use builder::{MessageBuilder, QuestionBuilder};
pub use compared::law_of_equal_push_errors;
pub use error::PushError;
pub use laws::law_of_built_messages;
pub use sections::{AdditionalBuilder, AnswerBuilder, AuthorityBuilder};
