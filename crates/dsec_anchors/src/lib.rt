//! Trust anchors (RFC 4033 2), also as zone text, and the islands of names.
#![tactic(auto)]

mod anchors;
mod compared;
mod error;
mod island;
mod text;

pub use anchors::{AnchorRecords, TrustAnchor, TrustAnchors};
pub use compared::law_of_equal_anchor_errors;
pub use error::AnchorError;
pub use island::{is_over_sets, island_owner};
pub use text::read_anchors;
