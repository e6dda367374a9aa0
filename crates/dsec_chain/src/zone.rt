//! Which records cut a zone of their own off, and which types are the zone's at its owners (RFC 4035 2.3, RFC 5155 7.1).

ghost use Rattle.std.specs.Prelude.{◌≡◌, ◌&&◌};
ghost use Rattle.std.specs.List.{list_any};
ghost use Rattle.dsec_spec.specs.Names.{place, same_place};
ghost use Rattle.dsec_spec.specs.Groups.{grouped_type as type_of};
ghost use Rattle.dsec_spec.specs.SetsToSign.{is_of_keys as of_keys, is_signed as signed_at, is_signed_at_cuts as signed_at_cuts};
ghost use Rattle.dsec_spec.specs.ZonesOfRecords.{is_at_cuts as at_cuts, is_cut as cut_by, is_own as own};
ghost use Rattle.dsec_chain.specs.Walk.{cuts as cuts_by, is_open as open_at};
ghost use Rattle.dsec_chain.specs.Views.{cut_place};

use crate::names::{is_below, is_same, is_strictly_below};
use dsec_name::Name;
use dsec_number::Rtype;
use dsec_wire::Record;

/// Whether the name is the zone's, where this was the last delegation.
pub(crate) fn is_open(apex: &Name, has_cut: bool, cut: &Name, name: &Name) -> bool
    ensures { result ≡ open_at (place apex.now) (cut_place has_cut cut.now) (place name.now) }
{
    is_below(name, apex) && !(has_cut && is_strictly_below(name, cut))
}

/// Whether one of an owner's records makes it a delegation.
pub(crate) fn cuts(apex: &Name, run: &[Record]) -> bool
    ensures { result ≡ cuts_by (place apex.now) run.now }
{
    run.iter().any(|one| is_cut_by(apex, one))
}

/// Whether the record cuts a zone of its own off.
fn is_cut_by(apex: &Name, one: &Record) -> bool
    ensures { result ≡ cut_by (place apex.now) one.now }
{
    one.rtype() == Rtype::NS && is_strictly_below(one.owner(), apex)
}

/// Whether a type stands at an owner with these records.
pub fn has_own(is_cut: bool, records: &[Record]) -> bool
    ensures { result ≡ list_any (own is_cut) records.now }
{
    records.iter().any(|one| is_own(is_cut, one))
}

/// Whether the record's type stands at its owner, where that is a delegation or isn't.
pub fn is_own(is_cut: bool, next: &Record) -> bool
    ensures { result ≡ own is_cut next.now }
{
    grouped_type(next) != Rtype::NSEC3 && (!is_cut || is_at_cuts(next.rtype()))
}

/// Whether the type is the zone's own at a delegation (RFC 4035 2.3).
fn is_at_cuts(rtype: Rtype) -> bool
    ensures { result ≡ at_cuts rtype }
{
    rtype == Rtype::NS || rtype == Rtype::DS || rtype == Rtype::NSEC || rtype == Rtype::RRSIG
}

/// Whether the set of a record inside the zone is signed, where its owner is a delegation or isn't: signatures aren't, nor the zone's keys
/// at the apex, nor what belongs to the zone below a delegation (RFC 4035 2.2).
pub fn is_signed(apex: &Name, is_cut: bool, one: &Record) -> bool
    ensures { result ≡ signed_at (place apex.now) is_cut one.now }
{
    let rtype = one.rtype();
    rtype != Rtype::RRSIG && !is_key_at(apex, one) && (!is_cut || is_signed_at_cuts(rtype))
}

/// Whether the record is of the zone's keys, which are signed apart (RFC 4035 2.2, RFC 7344 4.1).
fn is_key_at(apex: &Name, one: &Record) -> bool
    ensures { result ≡ (same_place (place one.now.owner) (place apex.now) && of_keys one.now.rtype) }
{
    is_of_keys(one.rtype()) && is_same(one.owner(), apex)
}

/// Whether a set of the type at the apex is of the zone's keys.
fn is_of_keys(rtype: Rtype) -> bool
    ensures { result ≡ of_keys rtype }
{
    rtype == Rtype::DNSKEY || rtype == Rtype::CDS || rtype == Rtype::CDNSKEY
}

/// Whether the type is signed at a delegation (RFC 4035 2.2).
fn is_signed_at_cuts(rtype: Rtype) -> bool
    ensures { result ≡ signed_at_cuts rtype }
{
    rtype == Rtype::DS || rtype == Rtype::NSEC
}

/// The type that a record is grouped by: of a signature the type that it covers (RFC 4034 3.1.1).
fn grouped_type(next: &Record) -> Rtype
    ensures { result ≡ type_of next.now }
{
    if next.rtype() != Rtype::RRSIG {
        return next.rtype();
    }
    match *next.rdata().octets().as_slice() {
        [high, low, ..] => Rtype::from_int(u16::from_be_bytes([high, low])),
        _ => Rtype::from_int(0),
    }
}
