//! The types that an NSEC3 record names (RFC 5155 3.2.1, 7.1).

ghost use Rattle.std.specs.Prelude.{◌≡◌, ◌&&◌, ◌++◌, OnOk};
ghost use Rattle.std.specs.List.{list_any};
ghost use Rattle.dsec_spec.specs.Names.{place};
ghost use Rattle.dsec_spec.specs.OwnersInside.{types_inside};
ghost use Rattle.dsec_spec.specs.SetsToSign.{is_signed as signed_at};
ghost use Rattle.dsec_spec.specs.ZonesOfRecords.{is_own as own};
ghost use Rattle.dsec_hashed.specs.HashedTypes.{hashed_types, is_at, own_types};
ghost use Rattle.dsec_hashed.specs.HashedViews.{hashed_view};

use crate::names::HashedName;
use dsec_chain::{is_own, is_same, is_signed};
use dsec_name::{Name, NoMemory};
use dsec_number::Rtype;
use dsec_wire::Record;

/// Adds the types of a name: those that stand there, RRSIG where a set there is signed, and NSEC3PARAM at the apex.
pub(crate) fn push_types(
    types: &mut Vec<Rtype>,
    apex: &Name,
    one: &HashedName<'_>,
) -> Result<(), NoMemory>
    ensures { OnOk result (types.new.items ≡ types.old.items ++ hashed_types (place apex.now) (hashed_view one.now)) }
{
    push_own(types, one.is_cut, one.records)?;
    if has_signed(apex, one.is_cut, one.records) {
        types.push(Rtype::RRSIG)?;
    }
    if stands_at(apex, one.records) {
        types.push(Rtype::NSEC3PARAM)?;
    }
    Ok(())
}

/// Adds the types that stand at an owner.
fn push_own(types: &mut Vec<Rtype>, is_cut: bool, records: &[Record]) -> Result<(), NoMemory>
    ensures { OnOk result (types.new.items ≡ types.old.items ++ own_types is_cut records.now) }
{
    for one in records {
        if is_own(is_cut, one) {
            types.push(one.rtype())?;
        }
    }
    Ok(())
}

/// Whether a set of an owner with these records is signed.
fn has_signed(apex: &Name, is_cut: bool, records: &[Record]) -> bool
    ensures { result ≡ list_any (λ r. own is_cut r && signed_at (place apex.now) is_cut r) records.now }
{
    records
        .iter()
        .any(|one| is_own(is_cut, one) && is_signed(apex, is_cut, one))
}

/// Whether records of one owner stand at the apex; none do where there are none.
fn stands_at(apex: &Name, records: &[Record]) -> bool
    ensures { result ≡ is_at (place apex.now) records.now }
{
    match records.first() {
        Some(first) => is_same(first.owner(), apex),
        None => false,
    }
}
