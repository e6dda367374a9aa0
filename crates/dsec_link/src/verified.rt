//! The verifier's answer (RFC 4035 5.3.3).

ghost use Rattle.std.specs.Prelude.{◌≡◌, ◌≢◌, ◌↔◌, Err, IsOk, IsTrue};
ghost use Rattle.dsec_crypto.specs.declared.error.AlgorithmError.TheVariants.{InvalidData};

use dsec_crypto::{AlgorithmError, Verifier};
use dsec_wire::{Dnskey, Rrsig};

/// Whether the verifier accepts the signature as the key's over the octets.
pub(crate) fn verify<V: Verifier>(
    rrsig: &Rrsig<'_>,
    dnskey: &Dnskey<'_>,
    octets: &[u8],
) -> Result<(), AlgorithmError>
    ensures same { rrsig.now.algorithm ≡ dnskey.now.algorithm → (IsOk result
        ↔ IsTrue (V.accepts dnskey.now.flags dnskey.now.protocol dnskey.now.algorithm dnskey.now.public_key.now octets.now rrsig.now.signature.now)) }
    ensures other { rrsig.now.algorithm ≢ dnskey.now.algorithm → result ≡ Err InvalidData }
{
    if rrsig.algorithm != dnskey.algorithm {
        return Err(AlgorithmError::InvalidData);
    }
    V::verify(
        dnskey.flags,
        dnskey.protocol,
        dnskey.algorithm.to_int(),
        dnskey.public_key,
        octets,
        rrsig.signature,
    )
}
