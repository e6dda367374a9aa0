//! The gaps between names, which NSEC records say (RFC 4034 4.1).

ghost use Rattle.std.specs.Prelude.{◌≡◌};
ghost use Rattle.std.specs.Option.{option_map};
ghost use Rattle.dsec_spec.specs.RecordViews.{nsec_of};
ghost use Rattle.dsec_wire.specs.DataViews.{nsec_view};

use dsec_name::NameRef;

/// The data of an NSEC record, field by field. The octets of the name and of the types are the record's.
#[derive(Clone, Copy)]
pub struct Nsec<'a> {
    /// The next owner in the zone's canonical order; the zone's apex after the last (RFC 4034 4.1.1).
    pub next_name: NameRef<'a>,
    /// The bitmap of the types that the owner has (RFC 4034 4.1.2).
    pub types: &'a [u8],
}

/// What an NSEC record's data say, where they are readable.
pub(crate) fn read_nsec(octets: &[u8]) -> Option<Nsec<'_>>
    ensures { option_map nsec_view result ≡ nsec_of octets.now }
{
    let (next_name, types) = NameRef::from_prefix(octets)?;
    Some(Nsec { next_name, types })
}
