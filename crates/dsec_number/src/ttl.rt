//! Times to live (RFC 1035 3.2.1).

ghost use Rattle.std.specs.Prelude.{◌≡◌};

use std::marker::Model;

/// How many seconds a record may be kept.
#[derive(Clone, Copy, Debug, PartialEq, Eq, PartialOrd, Ord, Hash)]
pub struct Ttl {
    number: u32,
}

impl Model for Ttl {
    ghost use Rattle.std.specs.Prelude.{ℕ};

    ghost Value = { ℕ };

    ghost view = { λ it. it.number };

    ghost inverse = { λ n. record { number = n } };
}

impl Ttl {
    /// Not to be kept.
    pub const ZERO: Ttl = Ttl { number: 0 };

    /// So many seconds.
    pub const fn from_secs(number: u32) -> Self
        ensures { result ≡ number }
    {
        Ttl { number }
    }

    /// How many seconds.
    pub const fn as_secs(self) -> u32
        ensures { result ≡ self }
    {
        self.number
    }
}
