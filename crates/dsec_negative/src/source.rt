//! Where denials are looked for.

use dsec_crypto::Verifier;
use dsec_found::JudgedGroup;
use dsec_name::Name;
use dsec_number::Class;

/// The judged groups of a reply, and of which class, and signed by which zone, those are that may deny.
#[derive(Clone, Copy)]
pub(crate) struct Source<'a, V: Verifier> {
    /// The groups.
    pub(crate) groups: &'a [JudgedGroup<V>],
    /// The class.
    pub(crate) class: Class,
    /// The zone.
    pub(crate) signer: &'a Name,
}
