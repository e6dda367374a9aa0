//! The keys that DNSKEY records say (RFC 4034 2.1), and their tags (RFC 4034 B).

ghost use Rattle.std.specs.Prelude.{◌≡◌, ◌<◌, ◌≤◌, ◌+◌, ◌*◌, ◌^◌, length, reverse};
ghost use Rattle.dsec_spec.specs.KeyTag.{modulus_tag as modulus_tag_of, word_sum as word_sum_of};

use dsec_number::SecurityAlgorithm;

/// The data of a DNSKEY record, field by field. The octets of the key are the record's.
#[derive(Clone, Copy)]
pub struct Dnskey<'a> {
    /// Zone Key is 0x0100, Secure Entry Point 0x0001, Revoke 0x0080 (RFC 5011 3).
    pub flags: u16,
    /// 3 in every key that signs zones (RFC 4034 2.1.2).
    pub protocol: u8,
    /// The key's algorithm (RFC 4034 2.1.3).
    pub algorithm: SecurityAlgorithm,
    /// The key as its algorithm writes it (RFC 4034 2.1.4).
    pub public_key: &'a [u8],
    ghost short: { length public_key.now < 2 ^ 16 },
}

impl<'a> Dnskey<'a> {
    ghost use Rattle.std.specs.Prelude.{◌≡◌, ◌≤◌, length};
    ghost use Rattle.std.specs.Option.{option_map};
    ghost use Rattle.dsec_spec.specs.KeyTag.{key_tag};
    ghost use Rattle.dsec_spec.specs.Records.{key_of};
    ghost use Rattle.dsec_wire.specs.Views.{key_view};

    /// What a DNSKEY record's data say, where they are readable.
    pub(crate) fn read(octets: &'a [u8]) -> Option<Dnskey<'a>>
        requires { length octets.now ≤ 65535 }
        ensures { option_map key_view result ≡ key_of octets.now }
    {
        match octets {
            [high, low, protocol, algorithm, public_key @ ..] => Some(Dnskey {
                flags: u16::from_be_bytes([*high, *low]),
                protocol: *protocol,
                algorithm: SecurityAlgorithm::from_int(*algorithm),
                public_key,
            }),
            _ => None,
        }
    }

    /// The key's tag: a checksum of the data, and for algorithm 1 two octets of the modulus (RFC 4034 B, B.1).
    pub fn key_tag(&self) -> u16
        ensures { result ≡ key_tag (key_view self.now) }
    {
        let public_key = self.public_key;
        if self.algorithm == SecurityAlgorithm::RSAMD5 {
            return modulus_tag(public_key);
        }
        let front = u32::from(self.flags)
            + u32::from(self.protocol) * 256
            + u32::from(self.algorithm.to_int());
        let sum = front + word_sum(public_key);
        ((sum + sum / 65536) % 65536) as u16
    }
}

/// The third- and second-last octets of a modulus; 0 where it has fewer than three.
fn modulus_tag(octets: &[u8]) -> u16
    ensures { result ≡ modulus_tag_of (reverse octets.now) }
{
    match *octets {
        [.., third, second, _] => u16::from_be_bytes([third, second]),
        _ => 0,
    }
}

/// The sum of the 16-bit words, the last of them with a low octet 0 where it has none.
fn word_sum(octets: &[u8]) -> u32
    requires { length octets.now < 2 ^ 16 }
    ensures exact { result ≡ word_sum_of octets.now }
    ensures bound { 2 * result ≤ 65535 * (length octets.now + 1) }
{
    let mut sum = 0;
    let mut rest = octets;
    while let [high, low, next @ ..] = rest {
        sum += u32::from(u16::from_be_bytes([*high, *low]));
        rest = next;
    }
    if let [high] = rest {
        sum += u32::from(*high) * 256;
    }
    sum
}
