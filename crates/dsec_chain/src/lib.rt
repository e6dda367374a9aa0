//! The chain of NSEC records of a zone (RFC 4034 4, RFC 4035 2.3).
#![tactic(auto)]

mod compared;
mod error;
mod names;
mod nsec;
mod owners;
mod soa;
mod zone;

pub use compared::{law_of_equal_denial_errors, law_of_equal_hash_errors};
pub use error::{DenialError, Nsec3HashError};
pub use names::{is_below, is_same, is_strictly_below};
pub use nsec::generate_nsecs;
pub use owners::{InsideOwner, inside_owners};
pub use soa::{chain_ttl, the_soa};
pub use zone::{has_own, is_own, is_signed};
