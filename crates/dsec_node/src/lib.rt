//! Nodes: what is known of names below trust anchors, and for how long (RFC 4033 5, RFC 4035 4.3, 5.2).
#![tactic(auto)]

mod anchor;
mod apex;
mod below;
mod bounds;
mod caches;
mod compared;
mod config;
mod copies;
mod counting;
mod ends;
mod keys;
mod links;
mod making;
mod node;
mod pending;
mod standing;

pub use anchor::anchor_node;
pub use apex::apex_node;
pub use below::{bogus_node, insecure_node, within_node};
pub use bounds::Bounds;
pub use caches::{Caches, OwnedCaches};
pub use compared::{law_of_equal_bounds, law_of_equal_grounds};
pub use config::Config;
pub use keys::{Keys, key_tags, tag_at};
pub use links::{kept_for, link_by_keys};
pub use node::Node;
pub use pending::Pending;
pub use standing::{Ground, SignedCause, Standing};
