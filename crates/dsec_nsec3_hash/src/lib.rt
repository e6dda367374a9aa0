//! Hashes of names as validation asks for them, the labels that write them, and the circle on which they stand (RFC 5155 1.3, 3.3, 5).
#![tactic(auto)]

mod circle;
mod compared;
mod error;
mod kept;
mod label;

pub use circle::{is_between, nsec3_in_range};
pub use compared::law_of_equal_label_errors;
pub use error::LabelToHashError;
pub use kept::{cached_nsec3_hash, hash_of, supported_nsec3_hash};
pub use label::nsec3_label_to_hash;
