//! Single groups validated by the node of a zone (RFC 4035 4.3, 5.3).
#![tactic(auto)]

mod answer;
mod by_node;
mod grounds;
mod told;
mod zone;

pub use answer::WithNode;
pub use by_node::{validate_with_node, validate_with_node_in_steps};
pub use told::Told;
