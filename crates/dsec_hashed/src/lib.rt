//! Hashes of names, and the chain of NSEC3 records of a zone (RFC 5155).
#![tactic(auto)]

mod bits;
mod chain;
mod data;
mod hash;
mod label;
mod names;
mod records;

pub use chain::{Nsec3Records, generate_nsec3s};
pub use hash::{nsec3_default_hash, nsec3_hash};
