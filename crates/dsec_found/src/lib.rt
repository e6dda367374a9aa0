//! What is found of a message's groups by the nodes of their zones (RFC 4033 5, RFC 4035 4.3, 5).
#![tactic(auto)]

mod begun;
mod compared;
mod error;
mod found;
mod island;
mod judged;
mod judging;
mod section;
mod shared;
mod target;

pub use begun::{Begun, begin};
pub use compared::law_of_equal_errors;
pub use error::Error;
pub use island::is_above_island;
pub use judged::JudgedGroup;
pub use judging::judged_by_node;
pub use section::{AllJudged, and_next};
pub use shared::{SharedCause, SharedLinks};
pub use target::{Target, target_of};
