//! The start of a zone, which an SOA record says (RFC 1035 3.3.13).

ghost use Rattle.std.specs.Prelude.{◌≡◌};
ghost use Rattle.std.specs.Option.{option_map};
ghost use Rattle.dsec_spec.specs.RecordViews.{soa_of};
ghost use Rattle.dsec_wire.specs.DataViews.{soa_view};

use crate::numbers::u32_at;
use dsec_name::NameRef;
use dsec_number::{Serial, Ttl};

/// The data of an SOA record, field by field. The octets of the names are the record's.
#[derive(Clone, Copy)]
pub struct Soa<'a> {
    /// The server that the zone's data come from.
    pub mname: NameRef<'a>,
    /// The mailbox of the person responsible: the first label is what stands before the `@`.
    pub rname: NameRef<'a>,
    /// The version of the zone.
    pub serial: Serial,
    /// After how many seconds a secondary server asks for the serial again.
    pub refresh: Ttl,
    /// After how many seconds it asks again where that failed.
    pub retry: Ttl,
    /// After how many seconds without an answer it no longer serves the zone.
    pub expire: Ttl,
    /// How many seconds a denial may be kept, at most (RFC 2308 4).
    pub minimum: Ttl,
}

/// What an SOA record's data say, where they are readable.
#[tactic(auto, unfolding(dsec_spec::specs::RecordViews::soa_of))]
pub(crate) fn read_soa(octets: &[u8]) -> Option<Soa<'_>>
    ensures { option_map soa_view result ≡ soa_of octets.now }
{
    let (mname, rest) = NameRef::from_prefix(octets)?;
    let (rname, numbers) = NameRef::from_prefix(rest)?;
    Some(Soa {
        mname,
        rname,
        serial: Serial::from_int(u32_at(numbers, 0)?),
        refresh: Ttl::from_secs(u32_at(numbers, 4)?),
        retry: Ttl::from_secs(u32_at(numbers, 8)?),
        expire: Ttl::from_secs(u32_at(numbers, 12)?),
        minimum: Ttl::from_secs(u32_at(numbers, 16)?),
    })
}
