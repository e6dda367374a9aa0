//! Walks from an island's anchor down to a name, a step at a time (RFC 4033 3.1, RFC 4035 5).
#![tactic(auto)]

mod names;
mod reached;
mod setting;
mod steps;
mod walk;

pub use setting::Setting;
pub use steps::{Input, Question, Step};
pub use walk::Walk;
