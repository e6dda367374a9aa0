//! The digests of keys, which DS records say (RFC 4034 5.1).

ghost use Rattle.std.specs.Prelude.{◌≡◌};
ghost use Rattle.std.specs.Option.{option_map};
ghost use Rattle.dsec_spec.specs.Records.{ds_of};
ghost use Rattle.dsec_wire.specs.DataViews.{ds_view};

use dsec_number::{DigestAlgorithm, SecurityAlgorithm};

/// The data of a DS record, field by field. The octets of the digest are the record's.
#[derive(Clone, Copy)]
pub struct Ds<'a> {
    /// The tag of the key (RFC 4034 B).
    pub key_tag: u16,
    /// The key's algorithm (RFC 4034 5.1.2).
    pub algorithm: SecurityAlgorithm,
    /// The digest's algorithm (RFC 4034 5.1.3).
    pub digest_type: DigestAlgorithm,
    /// The digest of the key's owner and data (RFC 4034 5.1.4).
    pub digest: &'a [u8],
}

/// What a DS record's data say, where they are readable.
pub(crate) fn read_ds(octets: &[u8]) -> Option<Ds<'_>>
    ensures { option_map ds_view result ≡ ds_of octets.now }
{
    match octets {
        [high, low, algorithm, digest_type, digest @ ..] => Some(Ds {
            key_tag: u16::from_be_bytes([*high, *low]),
            algorithm: SecurityAlgorithm::from_int(*algorithm),
            digest_type: DigestAlgorithm::from_int(*digest_type),
            digest,
        }),
        _ => None,
    }
}
