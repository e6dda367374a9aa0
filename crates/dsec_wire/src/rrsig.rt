//! The signatures that RRSIG records say (RFC 4034 3.1).

ghost use Rattle.std.specs.Prelude.{◌≡◌, ◌≤◌, length, IfSome};
ghost use Rattle.std.specs.Option.{option_map};
ghost use Rattle.dsec_spec.specs.Records.{rrsig_of};
ghost use Rattle.dsec_wire.specs.Views.{rrsig_view};
ghost use Rattle.dsec_wire.specs.RrsigHeads.{rrsig_head};

use crate::numbers::{u16_at, u32_at};
use dsec_name::NameRef;
use dsec_number::{Rtype, SecurityAlgorithm, Timestamp, Ttl};

/// The octets before the signer's name (RFC 4034 3.1).
const FIXED: usize = 18;

/// The data of an RRSIG record, field by field. The octets of the name and of the signature are the record's.
#[derive(Clone, Copy)]
pub struct Rrsig<'a> {
    /// The type of the records that are signed.
    pub type_covered: Rtype,
    /// The algorithm of the signature (RFC 4034 3.1.2).
    pub algorithm: SecurityAlgorithm,
    /// The labels of the owner, without the root's and without a leftmost `*` (RFC 4034 3.1.3).
    pub labels: u8,
    /// The TTL of the records in the zone, in seconds (RFC 4034 3.1.4).
    pub original_ttl: Ttl,
    /// The last moment of the signature's period (RFC 4034 3.1.5).
    pub expiration: Timestamp,
    /// The first moment of the signature's period (RFC 4034 3.1.5).
    pub inception: Timestamp,
    /// The tag of the key that signed (RFC 4034 B).
    pub key_tag: u16,
    /// The zone whose key signed.
    pub signer_name: NameRef<'a>,
    /// The signature as its algorithm writes it (RFC 4034 3.1.8).
    pub signature: &'a [u8],
}

/// The octets of an RRSIG record before the signer's name.
#[derive(Clone, Copy)]
pub(crate) struct RrsigHead {
    type_covered: Rtype,
    algorithm: SecurityAlgorithm,
    labels: u8,
    original_ttl: Ttl,
    expiration: Timestamp,
    inception: Timestamp,
    key_tag: u16,
}

/// What an RRSIG record's data say, where they are readable.
pub(crate) fn read_rrsig(octets: &[u8]) -> Option<Rrsig<'_>>
    ensures { option_map rrsig_view result ≡ rrsig_of octets.now }
{
    let head = rrsig_head_of(octets)?;
    let (_, rest) = octets.split_at(FIXED);
    let (signer_name, signature) = NameRef::from_prefix(rest)?;
    Some(Rrsig {
        type_covered: head.type_covered,
        algorithm: head.algorithm,
        labels: head.labels,
        original_ttl: head.original_ttl,
        expiration: head.expiration,
        inception: head.inception,
        key_tag: head.key_tag,
        signer_name,
        signature,
    })
}

/// The 18 octets before the signer's name.
fn rrsig_head_of(octets: &[u8]) -> Option<RrsigHead>
    ensures head { result ≡ rrsig_head octets.now }
    ensures within { IfSome result (λ _. 18 ≤ length octets.now) }
{
    Some(RrsigHead {
        type_covered: Rtype::from_int(u16_at(octets, 0)?),
        algorithm: SecurityAlgorithm::from_int(*octets.get(2)?),
        labels: *octets.get(3)?,
        original_ttl: Ttl::from_secs(u32_at(octets, 4)?),
        expiration: Timestamp::from_int(u32_at(octets, 8)?),
        inception: Timestamp::from_int(u32_at(octets, 12)?),
        key_tag: u16_at(octets, 16)?,
    })
}
