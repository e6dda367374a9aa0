//! Messages judged over caches of nodes, a memo and an upstream, and handed on; contexts that do it (RFC 4033 5, RFC 4035 4.3, 4.5, 5).
#![tactic(auto)]

mod answering;
mod context;
mod handing;
mod judgement;
mod judging;
mod serving;
mod turn;
mod validating;
mod verdict;

pub use answering::answer_to;
pub use context::ValidationContext;
pub use dsec_core::{Input, Outcome, Step, UsedGroup, Validation, Why};
pub use dsec_found::Error;
pub use judgement::Judgement;
pub use judging::{judge_counted_in, judge_in};
pub use validating::validate_in;
pub use verdict::Verdict;
