//! Response codes (RFC 1035 4.1.1, RFC 6891 6.1.3).

ghost use Rattle.std.specs.Prelude.{◌≡◌};

use std::marker::Model;

/// How a question was answered: the header's four bits, with the eight of an OPT record above them.
#[derive(Clone, Copy, Debug, PartialEq, Eq, PartialOrd, Ord, Hash)]
pub struct Rcode {
    number: u16,
}

impl Model for Rcode {
    ghost use Rattle.std.specs.Prelude.{ℕ};

    ghost Value = { ℕ };

    ghost view = { λ it. it.number };

    ghost inverse = { λ n. record { number = n } };
}

impl Rcode {
    /// No error.
    pub const NOERROR: Rcode = Rcode { number: 0 };

    /// The question was not understood.
    pub const FORMERR: Rcode = Rcode { number: 1 };

    /// The server failed.
    pub const SERVFAIL: Rcode = Rcode { number: 2 };

    /// The name does not exist.
    pub const NXDOMAIN: Rcode = Rcode { number: 3 };

    /// The server refused.
    pub const REFUSED: Rcode = Rcode { number: 5 };

    /// The rcode of this number.
    pub const fn from_int(number: u16) -> Self
        ensures { result ≡ number }
    {
        Rcode { number }
    }

    /// The rcode's number; that of a message is below 2^12.
    pub const fn to_int(self) -> u16
        ensures { result ≡ self }
    {
        self.number
    }
}
