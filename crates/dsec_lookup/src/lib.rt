//! What judging looks up: nodes in caches, and the replies of an upstream (RFC 4035 4.3, 4.5).
#![tactic(auto)]

mod lookup;

pub use lookup::{held_node, put_node, reply_to};
