//! What is no message.

ghost use Rattle.std.specs.Prelude.{Some, codes};

use std::fmt;

/// Octets that are too few for a message: fewer than the 12 of the header (RFC 1035 4.1.1).
#[derive(Clone, Copy, Debug, PartialEq, Eq)]
pub struct ShortMessage;

impl fmt::Display for ShortMessage {
    ghost output = { λ _. Some (codes "ShortMessage") };

    fn fmt<W: fmt::Write>(&self, f: &mut fmt::Formatter<W>) -> fmt::Result {
        f.write_str("ShortMessage")
    }
}
