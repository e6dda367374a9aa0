//! The period of signatures.

ghost use Rattle.std.specs.Prelude.{◌≡◌, ◌↔◌, IsTrue};
ghost use Rattle.dsec_spec.specs.Signatures.{IsValidPeriod};
ghost use Rattle.dsec_rrsig.specs.Signers.{period_of};

use dsec_number::Timestamp;

/// How the signatures of a zone are made.
#[derive(Clone, Copy, Debug, PartialEq, Eq)]
pub struct GenerateRrsigConfig {
    /// The moment from which they count.
    pub inception: Timestamp,
    /// The moment up to which they count.
    pub expiration: Timestamp,
}

impl GenerateRrsigConfig {
    /// Signatures of this period.
    pub fn new(inception: Timestamp, expiration: Timestamp) -> Self
        ensures inception { result.inception ≡ inception }
        ensures expiration { result.expiration ≡ expiration }
    {
        GenerateRrsigConfig {
            inception,
            expiration,
        }
    }

    /// Whether signatures may have the period: it ends less than 2^31 seconds after it begins (RFC 4034 3.1.5).
    pub fn is_valid(&self) -> bool
        ensures { IsTrue result ↔ IsValidPeriod (period_of self.now) }
    {
        let length = self
            .expiration
            .to_int()
            .wrapping_sub(self.inception.to_int());
        length < 1 << 31
    }
}
