//! How many bits keys have (RFC 3110 2, RFC 6605 4, RFC 8080 3).

ghost use Rattle.std.specs.Prelude.{◌≡◌, ◌<◌, ◌^◌, OnSome, IfSome, length};
ghost use Rattle.std.specs.Option.{option_map};
ghost use Rattle.dsec_spec.specs.KeySizes.{after_octets, key_size as key_size_of, modulus_of, modulus_size};
ghost use Rattle.dsec_wire.specs.Views.{key_view};
ghost use Rattle.dsec_link.specs.Sizes.{size_answer};

use dsec_crypto::AlgorithmError;
use dsec_wire::Dnskey;

/// How many bits the key has.
pub(crate) fn bits_of(key: &Dnskey<'_>) -> Result<usize, AlgorithmError>
    ensures { result ≡ size_answer (key_size_of (key_view key.now)) }
{
    let octets = key.public_key;
    match key.algorithm.to_int() {
        5 | 7 | 8 | 10 => rsa_size(octets),
        13 | 14 => Ok(8 * (octets.len() / 2)),
        15 | 16 => Ok(8 * octets.len()),
        _ => Err(AlgorithmError::Unsupported),
    }
}

/// The bits of an RSA key: those of its modulus from the first that is set, or from the second octet on.
fn rsa_size(octets: &[u8]) -> Result<usize, AlgorithmError>
    requires { length octets.now < 2 ^ 16 }
    ensures { result ≡ size_answer (modulus_size (modulus_of octets.now)) }
{
    match modulus(octets) {
        Some([first, rest @ ..]) => Ok(8 * (rest.len() + 1) - first.leading_zeros() as usize),
        _ => Err(AlgorithmError::InvalidData),
    }
}

/// The modulus of an RSA key, which stands after the exponent (RFC 3110 2).
fn modulus(octets: &[u8]) -> Option<&[u8]>
    requires { length octets.now < 2 ^ 16 }
    ensures value { option_map (λ x. x.now) result ≡ modulus_of octets.now }
    ensures short { IfSome result (λ x. length x.now < 2 ^ 16) }
{
    match octets {
        [0, high, low, rest @ ..] => after(usize::from(u16::from_be_bytes([*high, *low])), rest),
        [0, ..] => None,
        [size, rest @ ..] => after(usize::from(*size), rest),
        [] => None,
    }
}

/// What stands after so many octets.
fn after(size: usize, octets: &[u8]) -> Option<&[u8]>
    requires { length octets.now < 2 ^ 16 }
    ensures value { option_map (λ x. x.now) result ≡ after_octets size octets.now }
    ensures short { IfSome result (λ x. length x.now < 2 ^ 16) }
{
    let (_, rest) = octets.split_at_checked(size)?;
    Some(rest)
}
