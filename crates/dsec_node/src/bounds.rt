//! How much is tried for a node, and for how long it is kept.

/// How much is tried for a node, and for how many seconds it is kept. A node keeps the bounds within which it was made, and counts
/// for nobody who has others.
#[derive(Clone, Copy, Debug, PartialEq, Eq)]
pub struct Bounds {
    /// How many matching pairs of a signature and a key are tried of a set.
    pub room: u16,
    /// How long a node is kept at most.
    pub max_validity: u64,
    /// How long a bogus node is valid.
    pub max_bogus_validity: u64,
    /// How many DS records of a set are tried.
    pub max_ds_records: u8,
    /// How many keys with the algorithm and tag of a DS record are tried.
    pub max_keys_for_ds: u8,
    /// More NSEC3 iterations than these make a name insecure (RFC 9276 3.2).
    pub iterations_insecure: u16,
    /// More NSEC3 iterations than these are bogus (RFC 9276 3.2).
    pub iterations_bogus: u16,
    /// How many hashes are made at most to find a closest encloser (RFC 5155 8.3).
    pub most_hashes: u8,
}
