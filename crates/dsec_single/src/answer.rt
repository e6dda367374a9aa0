//! What is told of a group from trust anchors.

use dsec_by_node::Told;
use dsec_crypto::Verifier;
use dsec_name::Name;

/// What is told of a group from trust anchors.
#[derive(Drop)]
pub struct WithContext<V: Verifier> {
    /// What is told of it.
    pub told: Told<V>,
    /// The zone that is to have signed it, in the letters of the signature that names it, or of the group's owner where none does; the root
    /// for a group of signatures alone.
    pub target: Name,
}
