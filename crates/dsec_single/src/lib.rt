//! Single groups validated from trust anchors, over caches of nodes, a memo and an upstream (RFC 4035 4.3, 5.3).
#![tactic(auto)]

mod answer;
mod answering;
mod call;
mod group;
mod serving;
mod turn;

pub use answer::WithContext;
pub use call::{validate_with_vc, validate_with_vc_in_steps};
pub use dsec_by_node::{Told, WithNode, validate_with_node, validate_with_node_in_steps};
pub use group::validated;
