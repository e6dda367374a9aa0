//! What a node tells of a group, and for how long that may be kept.

use crate::told::Told;
use dsec_crypto::Verifier;

/// What is told of a group by a node.
#[derive(Drop)]
pub struct WithNode<V: Verifier> {
    /// What is told of it.
    pub told: Told<V>,
    /// For how many seconds that may be kept (RFC 4035 4.5, 4.7, 5.3.3).
    pub seconds: u64,
}
