//! What NSEC and NSEC3 records show of a name without a DS set.

use dsec_cause::Cause;
use dsec_node::Ground;

/// The indexes of a group, of its good signature in its `sig_set`, and of the key that made it among the keys.
#[derive(Clone, Copy, Debug, PartialEq, Eq)]
pub struct SignedAt {
    /// The group's index.
    pub group: usize,
    /// The good signature's.
    pub signature: usize,
    /// Its key's.
    pub key: usize,
}

/// What NSEC or NSEC3 records show of a name where no DS set stands for it (RFC 4035 5.2, RFC 5155 8.9).
#[derive(Clone, Copy, Debug, PartialEq, Eq)]
pub enum DsFinding {
    /// The name is in the zone, and no other zone begins there: by this group.
    Within(SignedAt),
    /// No chain leads to the name: by this group, on what ground, and the cause, if one is told.
    Insecure(SignedAt, Ground, Option<Cause>),
    /// One of them doesn't stand, or refutes that DS is missing.
    Bogus(Cause),
    /// They show nothing, and why, where there are some.
    Passed(Option<Cause>),
}
