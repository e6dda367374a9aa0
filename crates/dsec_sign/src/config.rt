//! How a zone is signed.

ghost use Rattle.std.specs.Prelude.{◌≡◌};
ghost use Rattle.dsec_rrsig.specs.Signers.{period_of};
ghost use Rattle.dsec_sign.specs.ZoneSigning.{zone_period};

use dsec_number::Timestamp;
use dsec_rrsig::GenerateRrsigConfig;
use dsec_sorted::DenialConfig;

/// How a zone is signed: the chain of denial that it gets, and the period of its signatures.
#[derive(Drop)]
pub struct SigningConfig {
    /// The chain of denial.
    pub denial: DenialConfig,
    /// The moment from which the signatures count.
    pub inception: Timestamp,
    /// The moment up to which they count.
    pub expiration: Timestamp,
}

impl SigningConfig {
    /// A zone with this chain, and signatures of this period.
    pub fn new(denial: DenialConfig, inception: Timestamp, expiration: Timestamp) -> Self
        ensures denial { result.denial ≡ denial }
        ensures inception { result.inception ≡ inception }
        ensures expiration { result.expiration ≡ expiration }
    {
        SigningConfig {
            denial,
            inception,
            expiration,
        }
    }

    /// How the signatures are made.
    pub(crate) fn rrsigs(&self) -> GenerateRrsigConfig
        ensures { period_of result ≡ zone_period self.now }
    {
        GenerateRrsigConfig::new(self.inception, self.expiration)
    }
}
