//! What a path of aliases goes by.

use dsec_crypto::Verifier;
use dsec_found::JudgedGroup;
use dsec_group::Limits;
use dsec_number::{Class, Rtype};
use dsec_wire::Record;

/// The judged groups of a reply, the class and the type that are asked for, and the anchors.
#[derive(Clone, Copy)]
pub(crate) struct Reply<'a, V: Verifier> {
    /// The anchors.
    pub(crate) anchors: &'a [Record],
    /// The class that is asked for.
    pub(crate) class: Class,
    /// The type that is asked for.
    pub(crate) rtype: Rtype,
    /// The groups of the answer section.
    pub(crate) answers: &'a [JudgedGroup<V>],
    /// The groups of the authority section.
    pub(crate) authorities: &'a [JudgedGroup<V>],
    /// How far hashes are followed.
    pub(crate) limits: &'a Limits,
}
