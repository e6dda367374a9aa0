//! A verifier for the program and for tests: a digest in place of a signature.

ghost use Rattle.std.specs.Prelude.{◌↔◌, IsOk, IsTrue, IsOkUnless};
ghost use Rattle.dsec_crypto.specs.StandIn.{stand_in};

use crate::digest::{DigestBuilder, DigestType};
use crate::error::AlgorithmError;
use crate::verifier::Verifier;

/// Insecure, for the program and for tests: anybody can make the signatures that it accepts.
///
/// It takes as signature the SHA-256 of the key's DNSKEY data (RFC 4034 2.1: flags in network order,
/// protocol, algorithm and key) and the message.
#[derive(Clone, Copy, Debug)]
pub struct StandIn;

impl Verifier for StandIn {
    ghost accepts = { stand_in };

    fn verify(
        flags: u16,
        protocol: u8,
        algorithm: u8,
        key: &[u8],
        message: &[u8],
        signature: &[u8],
    ) -> Result<(), AlgorithmError>
        ensures exact { IsOk result
            ↔ IsTrue (stand_in flags protocol algorithm key.now message.now signature.now) }
        ensures refused { IsOkUnless result AlgorithmError.BadSig }
    {
        let mut builder = DigestBuilder::new(DigestType::Sha256);
        builder.update(&flags.to_be_bytes());
        builder.update(&[protocol, algorithm]);
        builder.update(key);
        builder.update(message);
        if signature == builder.finish().as_ref() {
            Ok(())
        } else {
            Err(AlgorithmError::BadSig)
        }
    }
}
