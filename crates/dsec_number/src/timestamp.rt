//! The times of signatures (RFC 4034 3.1.5).

ghost use Rattle.std.specs.Prelude.{◌≡◌, ◌%◌, ◌^◌, ◌↔◌, IsTrue, Some};
ghost use Rattle.std.specs.Fmt.{decimal};
ghost use Rattle.dsec_spec.specs.Period.{InPeriod};

use std::fmt;
use std::marker::Model;

/// A moment in seconds since 1970, modulo 2^32. Moments lie on a circle, so the type has no order of its own.
#[derive(Clone, Copy, Debug, PartialEq, Eq, Hash)]
pub struct Timestamp {
    number: u32,
}

impl Model for Timestamp {
    ghost use Rattle.std.specs.Prelude.{ℕ};

    ghost Value = { ℕ };

    ghost view = { λ it. it.number };

    ghost inverse = { λ n. record { number = n } };
}

impl Timestamp {
    /// The moment of this number.
    pub const fn from_int(number: u32) -> Self
        ensures { result ≡ number }
    {
        Timestamp { number }
    }

    /// The moment's number.
    pub const fn to_int(self) -> u32
        ensures { result ≡ self }
    {
        self.number
    }

    /// The moment of this many seconds since 1970.
    pub const fn from_seconds(now: u64) -> Self
        ensures { result ≡ now % 2 ^ 32 }
    {
        Timestamp {
            number: (now & 0xffff_ffff) as u32,
        }
    }

    /// Whether the moment lies in the period from inception to expiration, both included. A period of
    /// 2^31 seconds or more has no moment in it (RFC 4034 3.1.5).
    pub fn in_period(self, inception: Timestamp, expiration: Timestamp) -> bool
        ensures { IsTrue result ↔ InPeriod inception expiration self }
    {
        let length = expiration.number.wrapping_sub(inception.number);
        let elapsed = self.number.wrapping_sub(inception.number);
        length < 1 << 31 && elapsed <= length
    }
}

/// The number, in decimal.
impl fmt::Display for Timestamp {
    ghost output = { λ t. Some (decimal t) };

    fn fmt<W: fmt::Write>(&self, f: &mut fmt::Formatter<W>) -> fmt::Result {
        write!(f, "{}", self.number)
    }
}
