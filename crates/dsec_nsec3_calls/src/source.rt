//! Where denials by hashes are looked for.

use dsec_crypto::Verifier;
use dsec_group::Limits;
use dsec_name::Name;
use dsec_negative::JudgedGroup;
use dsec_number::Class;

/// The judged groups of a reply; of which class, and signed by which zone, those are that may deny; and how far hashes are followed.
#[derive(Clone, Copy)]
pub(crate) struct Source<'a, V: Verifier> {
    /// The groups.
    pub(crate) groups: &'a [JudgedGroup<V>],
    /// The class.
    pub(crate) class: Class,
    /// The zone.
    pub(crate) signer: &'a Name,
    /// How far hashes are followed.
    pub(crate) limits: &'a Limits,
}
