//! Signatures that are added to the records that they are over.

ghost use Rattle.std.specs.Prelude.{◌≡◌, ◌≤◌, ◌==◌, All, IfErr, IfOk, IsErrOf, IsPermutation, IsSorted, IsTrue, OnErr, OnOk, drop, length, map, take};
ghost use Rattle.std.specs.List.{list_any};
ghost use Rattle.dsec_spec.specs.CanonicalRecords.{AreOfOneClass, IsCanonical, record_cmp};
ghost use Rattle.dsec_spec.specs.Names.{place};
ghost use Rattle.dsec_spec.specs.Numbers.{RRSIG};
ghost use Rattle.dsec_spec.specs.SignedZones.{IsUnion, sets_to_sign as zone_sets};
ghost use Rattle.dsec_sorted.specs.Sets.{AreOfOneSet};
ghost use Rattle.dsec_rrsig.specs.Signers.{period_of, signer_of};
ghost use Rattle.dsec_sign.specs.Adding.{AddsInOrder, AreApart};
ghost use Rattle.dsec_sign.specs.Places.{IsFound, IsSignable, set_at};
ghost use Rattle.dsec_sign.specs.Refusals.{AreAllowed, IsSetsRefusal};
ghost use Rattle.dsec_sign.specs.SignerAsks.{AskRefusals, AskSignings, all_asked};
ghost use Rattle.dsec_sign.specs.SignerFaults.{AreSameSigners, CountRefusals, CountSignings, SomeRose};
ghost use Rattle.dsec_sign.specs.ZoneSigning.{AddsZoneSignatures};

use crate::allowed::allow;
use crate::signing::sign_behind;
use crate::zone_sets::{SetAt, owners_of, sets_to_sign};
use dsec_name::{Name, NoMemory};
use dsec_number::Rtype;
use dsec_rrsig::{GenerateRrsigConfig, SignError, SignRaw, SigningError, SigningKey};
use dsec_sorted::{canonical_cmp, extend_sorted, is_sorted_canonical};
use dsec_wire::Record;
use std::alloc::Global;

/// Adds to records in canonical order the signatures of the zone that they make; a refusal changes nothing.
pub(crate) fn add_zone_signatures<I: SignRaw>(
    alloc: Global,
    apex: &Name,
    records: &mut Vec<Record>,
    keys: &mut [SigningKey<I>],
    config: &GenerateRrsigConfig,
) -> Result<(), SigningError>
    requires canonical { IsCanonical records.old.items }
    requires class { AreOfOneClass records.old.items }
    ensures signed { OnOk result (AddsZoneSignatures I.signs (period_of config.now) (map (signer_of I.key) keys.old) apex.now records.old.items records.new.items) }
    ensures allowed { OnOk result (AreAllowed (zone_sets (place apex.now) records.old.items) (map (signer_of I.key) keys.old) (period_of config.now)) }
    ensures why { IfErr result (λ e. IsSetsRefusal (zone_sets (place apex.now) records.old.items) (map (signer_of I.key) keys.old) (period_of config.now)
        (SomeRose I.faults keys.old keys.new) e) }
    ensures err { OnErr result (records.new.items ≡ records.old.items) }
    ensures same { AreSameSigners I.key I.faults keys.old keys.new }
    ensures counts { CountRefusals I.faults keys.old keys.new result }
    ensures asks { AskRefusals (period_of config.now) (zone_sets (place apex.now) records.old.items) (all_asked I.key I.asked I.given keys.old) (all_asked I.key I.asked I.given keys.new) result }
{
    let sets = sets_among(alloc, apex, records)?;
    allow(records, &sets, keys, config)?;
    add_signatures(alloc, records, &sets, keys, config)?;
    Ok(())
}

/// The sets that are signed in the zone that records make.
fn sets_among(alloc: Global, apex: &Name, records: &[Record]) -> Result<Vec<SetAt>, NoMemory>
    requires canonical { IsCanonical records.now }
    requires class { AreOfOneClass records.now }
    ensures sets { IfOk result (λ sets. map (set_at records.now) sets.items ≡ zone_sets (place apex.now) records.now) }
    ensures found { IfOk result (λ sets. All (IsFound records.now) sets.items) }
    ensures one { IfOk result (λ sets. All (λ it. AreOfOneSet (set_at records.now it)) sets.items) }
{
    let owners = owners_of(records);
    let sets = sets_to_sign(alloc, apex, &owners)?;
    Ok(sets)
}

/// Adds the signatures of each set by each key; a refusal changes nothing.
fn add_signatures<I: SignRaw>(
    alloc: Global,
    records: &mut Vec<Record>,
    sets: &[SetAt],
    keys: &mut [SigningKey<I>],
    config: &GenerateRrsigConfig,
) -> Result<(), SignError>
    requires canonical { IsCanonical records.old.items }
    requires sets { All (IsSignable records.old.items) sets.now }
    ensures signed { OnOk result (AddsInOrder I.signs (period_of config.now) (map (set_at records.old.items) sets.now) (map (signer_of I.key) keys.old) records.old.items records.new.items) }
    ensures err { OnErr result (records.new.items ≡ records.old.items) }
    ensures same { AreSameSigners I.key I.faults keys.old keys.new }
    ensures failed { IsErrOf result SignError.Failed → SomeRose I.faults keys.old keys.new }
    ensures counts { CountSignings I.faults keys.old keys.new result }
    ensures asks { AskSignings (period_of config.now) (map (set_at records.old.items) sets.now) (all_asked I.key I.asked I.given keys.old) (all_asked I.key I.asked I.given keys.new) result }
{
    let unsigned = records.len();
    if let Err(error) = sign_behind(alloc, records, sets, keys, config) {
        records.truncate(unsigned);
        return Err(error);
    }
    settle(records, unsigned)?;
    Ok(())
}

/// Brings signatures that stand behind records in canonical order into order with them; without memory they are taken away.
fn settle(records: &mut Vec<Record>, unsigned: usize) -> Result<(), NoMemory>
    requires fits { unsigned ≤ length records.old.items }
    requires canonical { IsCanonical (take unsigned records.old.items) }
    requires signatures { All (λ r. r.rtype ≡ RRSIG) (drop unsigned records.old.items) }
    ensures ok { OnOk result (IsUnion (take unsigned records.old.items) (drop unsigned records.old.items) records.new.items) }
    ensures err { OnErr result (records.new.items ≡ take unsigned records.old.items) }
{
    if are_apart(records, unsigned) {
        sort(records);
        return Ok(());
    }
    match records.split_off(unsigned) {
        Ok(added) => extend_sorted(records, added),
        Err(_) => {
            records.truncate(unsigned);
            Err(NoMemory)
        }
    }
}

/// Whether signatures that stand behind records are in canonical order, and there is none among these: then none is there twice.
fn are_apart(records: &[Record], unsigned: usize) -> bool
    requires { unsigned ≤ length records.now }
    ensures { IsTrue result → AreApart (take unsigned records.now) (drop unsigned records.now) }
{
    let (front, behind) = records.split_at(unsigned);
    !has_signature(front) && is_sorted_canonical(behind)
}

/// Whether one of the records is a signature.
fn has_signature(records: &[Record]) -> bool
    ensures { result ≡ list_any (λ r. r.rtype == RRSIG) records.now }
{
    records.iter().any(|one| is_signature(one))
}

/// Whether a record is a signature.
fn is_signature(one: &Record) -> bool
    ensures { result ≡ (one.now.rtype == RRSIG) }
{
    one.rtype() == Rtype::RRSIG
}

/// Brings records into canonical order; duplicates are left as they come.
fn sort(records: &mut Vec<Record>)
    ensures permuted { IsPermutation records.old.items records.new.items }
    ensures sorted { IsSorted record_cmp records.new.items }
{
    if merge(records).is_err() {
        sort_in_place(records);
    }
}

/// The same, by merging the parts that are in order already: of two, in two comparisons for each record. It takes memory for half of them;
/// without it nothing is changed.
fn merge(records: &mut Vec<Record>) -> Result<(), NoMemory>
    ensures permuted { OnOk result (IsPermutation records.old.items records.new.items) }
    ensures sorted { OnOk result (IsSorted record_cmp records.new.items) }
    ensures err { OnErr result (records.new.items ≡ records.old.items) }
{
    records.sort_by(|a, b| canonical_cmp(a, b))?;
    Ok(())
}

/// The same without memory, in n log n comparisons.
fn sort_in_place(records: &mut Vec<Record>)
    ensures permuted { IsPermutation records.old.items records.new.items }
    ensures sorted { IsSorted record_cmp records.new.items }
{
    records.sort_unstable_by(|a, b| canonical_cmp(a, b));
}
