//! Serial numbers of zones (RFC 1035 3.3.13).

ghost use Rattle.std.specs.Prelude.{◌≡◌};

use std::marker::Model;

/// The serial number of a zone. Serial numbers lie on a circle, so the type has no order of its own.
#[derive(Clone, Copy, Debug, PartialEq, Eq, Hash)]
pub struct Serial {
    number: u32,
}

impl Model for Serial {
    ghost use Rattle.std.specs.Prelude.{ℕ};

    ghost Value = { ℕ };

    ghost view = { λ it. it.number };

    ghost inverse = { λ n. record { number = n } };
}

impl Serial {
    /// The serial of this number.
    pub const fn from_int(number: u32) -> Self
        ensures { result ≡ number }
    {
        Serial { number }
    }

    /// The serial's number.
    pub const fn to_int(self) -> u32
        ensures { result ≡ self }
    {
        self.number
    }
}
