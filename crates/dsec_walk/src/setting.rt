//! What judging goes by.

use dsec_node::Config;
use dsec_wire::Record;

/// What judging goes by: the trust anchors, the settings, and the moment in seconds since 1970 (RFC 4033 2).
#[derive(Clone, Copy)]
pub struct Setting<'a> {
    /// The anchors of all islands.
    pub anchors: &'a [Record],
    /// How much is done at most, and for how long what is known is kept.
    pub config: &'a Config,
    /// The moment of judging, in seconds since 1970.
    pub moment: u64,
}
