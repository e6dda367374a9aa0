//! The chain of NSEC records of a zone (RFC 4034 4, RFC 4035 2.3).

ghost use Rattle.std.specs.Prelude.{◌≡◌, ◌≢◌, ◌↔◌, ◌++◌, ◌∷◌, ◌⊎◌, [], filter, length, map, IfErr, IfOk, IsErrOf, OnOk};
ghost use Rattle.dsec_spec.specs.Names.{place};
ghost use Rattle.dsec_spec.specs.CanonicalRecords.{AreOfOneClass, IsCanonical};
ghost use Rattle.dsec_spec.specs.NsecChains.{AreNsecsOf, IsNsecChain, IsNsecOf, next_name as name_after};
ghost use Rattle.dsec_spec.specs.OwnersInside.{types_inside};
ghost use Rattle.dsec_spec.specs.ZonesOfRecords.{soas_at};
ghost use Rattle.dsec_sorted.specs.IterViews.{left_of};
ghost use Rattle.dsec_chain.specs.Views.{inside_view, is_typed, owner_view};

use crate::error::DenialError;
use crate::owners::{InsideOwner, inside_owners};
use crate::soa::{chain_ttl, the_soa};
use crate::zone::{has_own, is_own};
use dsec_name::{Name, NoMemory, Octets};
use dsec_number::{Class, Rtype, Ttl};
use dsec_sorted::{RecordsIter, push_bitmap};
use dsec_wire::{Data, Record};
use std::alloc::Global;

/// The NSEC records of the zone that records in canonical order make, without duplicates and of one class: one at each owner at or below
/// the apex and not strictly below a delegation, in order. It takes one pass over the records.
pub fn generate_nsecs(
    alloc: Global,
    apex: &Name,
    records: RecordsIter<'_>,
) -> Result<Vec<Record>, DenialError>
    requires canonical { IsCanonical (left_of records) }
    requires class { AreOfOneClass (left_of records) }
    ensures chain { IfOk result (λ nsecs. IsNsecChain apex.now (left_of records.entry) nsecs.items) }
    ensures soa { IsErrOf result DenialError.SoaRecordCouldNotBeDetermined ↔ (length (soas_at (place apex.now) (left_of records.entry)) ≢ 1) }
    ensures why { IfErr result (λ e. (e ≡ DenialError.SoaRecordCouldNotBeDetermined) ⊎ (e ≡ DenialError.NoMemory)) }
{
    let Some(soa) = the_soa(apex, records.as_slice()) else {
        return Err(DenialError::SoaRecordCouldNotBeDetermined);
    };
    let nsecs = chain_of(alloc, apex, &records, soa)?;
    Ok(nsecs)
}

/// The same, with the SOA record at hand.
fn chain_of(
    alloc: Global,
    apex: &Name,
    records: &RecordsIter<'_>,
    soa: &Record,
) -> Result<Vec<Record>, NoMemory>
    requires canonical { IsCanonical (left_of records.now) }
    requires class { AreOfOneClass (left_of records.now) }
    requires soa { soas_at (place apex.now) (left_of records.now) ≡ soa.now ∷ [] }
    ensures { IfOk result (λ nsecs. IsNsecChain apex.now (left_of records.now) nsecs.items) }
{
    let mut owners = inside_owners(alloc, apex, records)?;
    keep_typed(&mut owners);
    let nsecs = nsec_records(alloc, apex, &owners, soa.class(), chain_ttl(soa))?;
    Ok(nsecs)
}

/// Keeps the owners at which a type stands.
fn keep_typed(owners: &mut Vec<InsideOwner<'_>>)
    ensures { owners.new.items ≡ filter is_typed owners.old.items }
{
    owners.retain(|one| has_own(one.is_cut, one.records));
}

/// The NSEC records of owners, in order.
fn nsec_records(
    alloc: Global,
    apex: &Name,
    owners: &[InsideOwner<'_>],
    class: Class,
    ttl: Ttl,
) -> Result<Vec<Record>, NoMemory>
    ensures { IfOk result (λ nsecs. AreNsecsOf apex.now class ttl (map owner_view owners.now) nsecs.items) }
{
    let mut nsecs = Vec::with_capacity(alloc, owners.len())?;
    let mut types = Vec::new(alloc);
    for i in 0..owners.len() {
        let (_, after) = owners.split_at(i + 1);
        let next = next_name(apex, after);
        nsecs.push(nsec_record(alloc, &owners[i], next, class, ttl, &mut types)?)?;
    }
    Ok(nsecs)
}

/// The name of the first of the owners; the apex where there is none.
fn next_name<'a>(apex: &'a Name, owners: &'a [InsideOwner<'_>]) -> &'a Name
    ensures { result.now ≡ name_after apex.now (map owner_view owners.now) }
{
    match owners.first() {
        Some(owner) => owner.name,
        None => apex,
    }
}

/// An owner's NSEC record. What `types` holds doesn't matter.
fn nsec_record(
    alloc: Global,
    owner: &InsideOwner<'_>,
    next: &Name,
    class: Class,
    ttl: Ttl,
    types: &mut Vec<Rtype>,
) -> Result<Record, NoMemory>
    ensures { IfOk result (λ r. IsNsecOf (owner_view owner.now) next.now class ttl r) }
{
    types.clear();
    push_types(types, owner)?;
    types.push(Rtype::RRSIG)?;
    types.push(Rtype::NSEC)?;
    let mut octets = Vec::new(alloc);
    next.compose(&mut octets)?;
    push_bitmap(&mut octets, types)?;
    let rdata = Data::new(Rtype::NSEC, Octets::new(octets));
    Ok(Record::new(copied(owner.name)?, class, ttl, rdata))
}

/// Adds the types that stand at an owner.
fn push_types(types: &mut Vec<Rtype>, owner: &InsideOwner<'_>) -> Result<(), NoMemory>
    ensures { OnOk result (types.new.items ≡ types.old.items ++ types_inside (inside_view owner.now)) }
{
    for one in owner.records {
        if is_own(owner.is_cut, one) {
            types.push(one.rtype())?;
        }
    }
    Ok(())
}

/// A copy of a name.
fn copied(name: &Name) -> Result<Name, NoMemory>
    ensures { IfOk result (λ copy. copy ≡ name.now) }
{
    Ok(name.clone()?)
}
