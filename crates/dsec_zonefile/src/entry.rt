//! What zone text is made of.

use dsec_name::{Name, Octets};
use dsec_wire::Record;

/// An entry of zone text (RFC 1035 5.1).
#[derive(Drop)]
pub enum Entry {
    /// A record.
    Record(Record),
    /// `$INCLUDE`: the text at this path is to be read here, whose names are relative to the origin, if one is given.
    Include {
        /// The path, as it stands in the text but for quotes and escapes.
        path: Octets,
        /// The origin, if one is given.
        origin: Option<Name>,
    },
}
