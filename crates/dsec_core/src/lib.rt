//! A message judged a step at a time, without waiting (RFC 4033 5, RFC 4035 4.3, 5).
#![tactic(auto)]

mod begun;
mod bounds;
mod course;
mod step;
mod validation;

pub use bounds::{all_bounded, bounded};
pub use dsec_outcome::{Outcome, SharedCause, SharedLinks, UsedGroup, Why};
pub use dsec_walk::Input;
pub use step::Step;
pub use validation::Validation;
