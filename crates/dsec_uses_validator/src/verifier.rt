//! A verifier of one's own, behind the trait `Verifier`.

ghost use Rattle.dsec_uses_validator.specs.Accepted.{by_one_algorithm};

use dsec_crypto::{AlgorithmError, StandIn, Verifier};

/// Takes signatures of algorithm 13 alone (RFC 6605). It is insecure: where the stand-in is asked, one's own cryptography belongs.
pub struct OneAlgorithm;

impl Verifier for OneAlgorithm {
    ghost accepts = { by_one_algorithm };

    fn verify(
        flags: u16,
        protocol: u8,
        algorithm: u8,
        key: &[u8],
        message: &[u8],
        signature: &[u8],
    ) -> Result<(), AlgorithmError> {
        if algorithm != 13 {
            return Err(AlgorithmError::Unsupported);
        }
        StandIn::verify(flags, protocol, algorithm, key, message, signature)
    }
}
