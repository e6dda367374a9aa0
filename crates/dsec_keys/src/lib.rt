//! Keys in order, found by the algorithm and the tag that signatures name them by (RFC 4034 3.1.2, 3.1.6).
#![tactic(auto)]

mod index;
mod list;

pub use index::{KeyIndex, entry};
pub use list::{KeyList, TaggedKeys};
