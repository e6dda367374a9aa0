//! Validation of messages, what is written for their outcomes, and the program's commands over a source and a sink.
#![tactic(auto)]

mod command;
mod compared;
mod judging;
mod outcome;
mod script;
mod sending;
mod texts;
mod used_texts;
mod validating;

pub use command::{run, run_by};
pub use compared::law_of_equal_unjudged;
pub use dsec_context::{Error, ValidationContext, Verdict, Why, validate_in};
pub use outcome::{Outcome, Unjudged};
pub use texts::text;
pub use validating::validate;
