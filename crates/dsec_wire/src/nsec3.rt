//! The gaps between hashes, which NSEC3 records say, and how the hashes are made (RFC 5155 3.2, 4.2).

ghost use Rattle.std.specs.Prelude.{◌≡◌};
ghost use Rattle.std.specs.Option.{option_map};
ghost use Rattle.dsec_spec.specs.RecordViews.{text_in, nsec3_of, nsec3param_of};
ghost use Rattle.dsec_wire.specs.DataViews.{split_view, hashing_view, nsec3_view};

use dsec_number::Nsec3HashAlgorithm;

/// The data of an NSEC3 record, field by field. The octets of the salt, the hash and the types are the record's.
#[derive(Clone, Copy)]
pub struct Nsec3<'a> {
    /// The hash's algorithm (RFC 5155 3.1.1).
    pub hash_algorithm: Nsec3HashAlgorithm,
    /// Opt-Out is 0x01 (RFC 5155 3.1.2.1).
    pub flags: u8,
    /// How often the hash is taken again (RFC 5155 3.1.3).
    pub iterations: u16,
    /// What is added to each name before it is hashed (RFC 5155 3.1.5).
    pub salt: &'a [u8],
    /// The next hash in the zone, as octets; the first after the last (RFC 5155 3.1.7).
    pub next_owner: &'a [u8],
    /// The bitmap of the types that the name has whose hash the owner is (RFC 5155 3.1.8).
    pub types: &'a [u8],
}

/// The data of an NSEC3PARAM record, field by field. The octets of the salt are the record's.
#[derive(Clone, Copy)]
pub struct Nsec3param<'a> {
    /// The hash's algorithm (RFC 5155 4.1.1).
    pub hash_algorithm: Nsec3HashAlgorithm,
    /// 0 in a record that a server uses (RFC 5155 4.1.2).
    pub flags: u8,
    /// How often the hash is taken again (RFC 5155 4.1.3).
    pub iterations: u16,
    /// What is added to each name before it is hashed (RFC 5155 4.1.5).
    pub salt: &'a [u8],
}

/// What an NSEC3 record's data say, where they are readable.
pub(crate) fn read_nsec3(octets: &[u8]) -> Option<Nsec3<'_>>
    ensures { option_map nsec3_view result ≡ nsec3_of octets.now }
{
    match octets {
        [hash_algorithm, flags, high, low, rest @ ..] => {
            let (salt, rest) = string_in(rest)?;
            let (next_owner, types) = string_in(rest)?;
            Some(Nsec3 {
                hash_algorithm: Nsec3HashAlgorithm::from_int(*hash_algorithm),
                flags: *flags,
                iterations: u16::from_be_bytes([*high, *low]),
                salt,
                next_owner,
                types,
            })
        }
        _ => None,
    }
}

/// What an NSEC3PARAM record's data say, where they are readable.
pub(crate) fn read_nsec3param(octets: &[u8]) -> Option<Nsec3param<'_>>
    ensures { option_map hashing_view result ≡ nsec3param_of octets.now }
{
    match octets {
        [hash_algorithm, flags, high, low, rest @ ..] => {
            let (salt, _) = string_in(rest)?;
            Some(Nsec3param {
                hash_algorithm: Nsec3HashAlgorithm::from_int(*hash_algorithm),
                flags: *flags,
                iterations: u16::from_be_bytes([*high, *low]),
                salt,
            })
        }
        _ => None,
    }
}

/// The text of the string at the front, and the octets after it (RFC 1035 3.3).
fn string_in(octets: &[u8]) -> Option<(&[u8], &[u8])>
    ensures { option_map split_view result ≡ text_in octets.now }
{
    let (&size, rest) = octets.split_first()?;
    rest.split_at_checked(usize::from(size))
}
