//! The sets that are signed in a zone (RFC 4035 2.2).

ghost use Rattle.std.specs.Prelude.{◌≡◌, ◌≢◌, ◌≤◌, ◌<◌, ◌+◌, ◌^◌, ◌↔◌, ◌++◌, ◌∷◌, [], if◌then◌else◌, List, All, IfOk, IsTrue, OnOk, length, map, slice_index_or, take};
ghost use Rattle.dsec_spec.specs.CanonicalRecords.{AreOfOneClass, IsCanonical};
ghost use Rattle.dsec_spec.specs.Names.{place, same_place};
ghost use Rattle.dsec_spec.specs.Records as entries;
ghost use Rattle.dsec_spec.specs.SetsToSign.{is_of_keys as of_keys, is_signed as signed_at, is_signed_at_cuts as signed_at_cuts};
ghost use Rattle.dsec_spec.specs.SignedZones.{sets_to_sign as zone_sets};
ghost use Rattle.dsec_sorted.specs.IterViews.{left_of};
ghost use Rattle.dsec_sorted.specs.Sets.{AreOfOneSet};
ghost use Rattle.dsec_chain.specs.Views.{IsPlaced};
ghost use Rattle.dsec_sign.specs.Places.{IsFound, set_at};
ghost use Rattle.dsec_sign.specs.Pushing.{IsOwner, Pushed};

use dsec_chain::{InsideOwner, inside_owners};
use dsec_name::{Name, NoMemory};
use dsec_number::Rtype;
use dsec_sorted::RecordsIter;
use dsec_wire::Record;
use std::alloc::Global;

/// A set among records.
#[derive(Clone, Copy)]
pub(crate) struct SetAt {
    /// How many records stand before it.
    pub(crate) start: usize,
    /// How many records it has.
    pub(crate) size: usize,
}

/// The sets that are signed in the zone that records in canonical order make, in order. It takes one pass, and a few comparisons of
/// names for each owner.
pub(crate) fn sets_to_sign(
    alloc: Global,
    apex: &Name,
    records: &RecordsIter<'_>,
) -> Result<Vec<SetAt>, NoMemory>
    requires canonical { IsCanonical (left_of records.now) }
    requires class { AreOfOneClass (left_of records.now) }
    ensures sets { IfOk result (λ sets. map (set_at (left_of records.now)) sets.items ≡ zone_sets (place apex.now) (left_of records.now)) }
    ensures found { IfOk result (λ sets. All (IsFound (left_of records.now)) sets.items) }
    ensures one { IfOk result (λ sets. All (λ it. AreOfOneSet (set_at (left_of records.now) it)) sets.items) }
{
    let mut sets = Vec::with_capacity(alloc, records.as_slice().len())?;
    let owners = inside_owners(alloc, apex, records)?;
    for owner in &owners {
        push_sets(&mut sets, apex, owner)?;
    }
    Ok(sets)
}

/// Adds the sets of an owner that are signed.
fn push_sets(sets: &mut Vec<SetAt>, apex: &Name, owner: &InsideOwner<'_>) -> Result<(), NoMemory>
    requires owner { IsOwner owner.now.records.now }
    requires fits { owner.now.start + length owner.now.records.now < 2 ^ 64 }
    ensures { OnOk result ((records : List entries.Record) → IsPlaced records owner.now
        → Pushed records (signed_at (place apex.now) owner.now.is_cut) owner.now.records.now [] sets.old.items sets.new.items) }
{
    let mut rest = owner.records;
    let mut start = owner.start;
    while let Some((first, _)) = rest.split_first() {
        let size = set_length(first, rest);
        push_if(
            sets,
            is_signed(apex, owner.is_cut, first),
            SetAt { start, size },
        )?;
        let (_, after) = rest.split_at(size);
        rest = after;
        start += size;
    }
    Ok(())
}

/// Adds a set, if it is signed.
fn push_if(sets: &mut Vec<SetAt>, is_signed: bool, one: SetAt) -> Result<(), NoMemory>
    ensures { OnOk result (sets.new.items ≡ (if is_signed then sets.old.items ++ one ∷ [] else sets.old.items)) }
{
    if is_signed {
        sets.push(one)?;
    }
    Ok(())
}

/// How many records of one owner from the first on have its type.
fn set_length(first: &Record, records: &[Record]) -> usize
    ensures fits { result ≤ length records.now }
    ensures run { All (λ r. r.rtype ≡ first.now.rtype) (take result records.now) }
    ensures next { (d : entries.Record) → result < length records.now → (slice_index_or records.now result d).rtype ≢ first.now.rtype }
{
    let mut size = 0;
    while size < records.len() && has_type_of(first, &records[size]) {
        size += 1;
    }
    size
}

/// Whether a record has the type of another.
fn has_type_of(first: &Record, one: &Record) -> bool
    ensures { IsTrue result ↔ (one.now.rtype ≡ first.now.rtype) }
{
    one.rtype() == first.rtype()
}

/// Whether the set of a record inside the zone is signed, where its owner is a delegation or isn't.
fn is_signed(apex: &Name, is_cut: bool, one: &Record) -> bool
    ensures { result ≡ signed_at (place apex.now) is_cut one.now }
{
    let rtype = one.rtype();
    rtype != Rtype::RRSIG
        && !(is_same(one.owner(), apex) && is_of_keys(rtype))
        && (!is_cut || is_signed_at_cuts(rtype))
}

/// Whether a set of the type at the apex is of the zone's keys (RFC 4035 2.2, RFC 7344 4.1).
fn is_of_keys(rtype: Rtype) -> bool
    ensures { result ≡ of_keys rtype }
{
    rtype == Rtype::DNSKEY || rtype == Rtype::CDS || rtype == Rtype::CDNSKEY
}

/// Whether the type is signed at a delegation (RFC 4035 2.2, 2.3).
fn is_signed_at_cuts(rtype: Rtype) -> bool
    ensures { result ≡ signed_at_cuts rtype }
{
    rtype == Rtype::DS || rtype == Rtype::NSEC
}

/// Whether two names are one, ASCII case aside (RFC 4343 3).
fn is_same(a: &Name, b: &Name) -> bool
    ensures { result ≡ same_place (place a.now) (place b.now) }
{
    *a == *b
}

/// Goes over records in canonical order, of one class, owner by owner.
pub(crate) fn owners_of<'a>(records: &'a [Record]) -> RecordsIter<'a>
    requires canonical { IsCanonical records.now }
    requires class { AreOfOneClass records.now }
    ensures { left_of result ≡ records.now }
{
    RecordsIter::new_from_owned(records)
}
