//! The names that CNAME and DNAME records lead to (RFC 1035 3.3.1, RFC 6672 2.1).

ghost use Rattle.std.specs.Prelude.{◌≡◌};
ghost use Rattle.std.specs.Option.{option_map};
ghost use Rattle.dsec_spec.specs.RecordViews.{target_of};
ghost use Rattle.dsec_wire.specs.DataViews.{cname_view, dname_view};

use dsec_name::NameRef;

/// The data of a CNAME record. The octets of the name are the record's.
#[derive(Clone, Copy)]
pub struct Cname<'a> {
    /// The name that the owner is an alias of.
    pub cname: NameRef<'a>,
}

/// The data of a DNAME record. The octets of the name are the record's.
#[derive(Clone, Copy)]
pub struct Dname<'a> {
    /// The name that stands for the owner in the names below it.
    pub dname: NameRef<'a>,
}

/// What a CNAME record's data say, where they are readable.
pub(crate) fn read_cname(octets: &[u8]) -> Option<Cname<'_>>
    ensures { option_map cname_view result ≡ target_of octets.now }
{
    let (cname, _) = NameRef::from_prefix(octets)?;
    Some(Cname { cname })
}

/// What a DNAME record's data say, where they are readable.
pub(crate) fn read_dname(octets: &[u8]) -> Option<Dname<'_>>
    ensures { option_map dname_view result ≡ target_of octets.now }
{
    let (dname, _) = NameRef::from_prefix(octets)?;
    Some(Dname { dname })
}
