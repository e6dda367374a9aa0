//! Groups with what validation says of them, and why; and answers of a verifier and hashes that are kept (RFC 4035 5.3, RFC 5155 5).
#![tactic(auto)]

mod nsec3_cache;
mod sig_cache;
mod sizes;
mod validated;

pub use nsec3_cache::Nsec3Cache;
pub use sig_cache::SigCache;
pub use validated::ValidatedGroup;
