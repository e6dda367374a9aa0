//! A zone whose chain and signatures are added to other records (RFC 4035 2).

ghost use Rattle.std.specs.Prelude.{◌≡◌, IfErr, IfOk, OnOk, map};
ghost use Rattle.dsec_spec.specs.CanonicalRecords.{AreOfOneClass, IsCanonical};
ghost use Rattle.dsec_spec.specs.SignedZones.{IsUnion};
ghost use Rattle.dsec_rrsig.specs.Signers.{signer_of};
ghost use Rattle.dsec_sign.specs.SignerAsks.{AskZone, all_asked};
ghost use Rattle.dsec_sign.specs.SignerFaults.{AreSameSigners, CountRefusals, SomeRose};
ghost use Rattle.dsec_sign.specs.ZoneSigning.{IsZoneRefusal, SignsZone};

use crate::chain::chain_of;
use crate::config::SigningConfig;
use crate::sorted_extend::SortedExtend;
use crate::zone_records::sign_sorted_zone_records;
use crate::zone_sets::owners_of;
use dsec_name::{Name, NoMemory};
use dsec_rrsig::{SignRaw, SigningError, SigningKey};
use dsec_sorted::extend_sorted;
use dsec_wire::Record;
use std::alloc::Global;

/// Adds the chain and the signatures of a zone in canonical order, without duplicates and of one class, to other records. Zone and
/// chain merged are signed; for this they are copied.
pub(crate) fn sign_into<T: SortedExtend, I: SignRaw>(
    alloc: Global,
    apex: &Name,
    zone: &[Record],
    config: &SigningConfig,
    keys: &mut [SigningKey<I>],
    out: &mut T,
) -> Result<(), SigningError>
    requires canonical { IsCanonical zone.now }
    requires class { AreOfOneClass zone.now }
    ensures signed { OnOk result (SignsZone I.signs config.now (map (signer_of I.key) keys.old) apex.now zone.now (T.records out.old) (T.records out.new)) }
    ensures why { IfErr result (λ e. IsZoneRefusal config.now (map (signer_of I.key) keys.old) (SomeRose I.faults keys.old keys.new) apex.now
        zone.now (T.records out.old) (T.records out.new) e) }
    ensures same { AreSameSigners I.key I.faults keys.old keys.new }
    ensures counts { CountRefusals I.faults keys.old keys.new result }
    ensures asks { AskZone config.now apex.now zone.now (all_asked I.key I.asked I.given keys.old) (all_asked I.key I.asked I.given keys.new) result }
{
    let chain = chain_of(alloc, apex, owners_of(zone), &config.denial)?;
    let whole = merged(alloc, zone, &chain)?;
    out.sorted_extend(chain)?;
    let rrsigs = config.rrsigs();
    match sign_sorted_zone_records(alloc, apex, owners_of(&whole), keys, &rrsigs) {
        Ok(signatures) => match out.sorted_extend(signatures) {
            Ok(()) => Ok(()),
            Err(error) => Err(SigningError::from(error)),
        },
        Err(error) => Err(error),
    }
}

/// A zone and its chain, merged.
fn merged(alloc: Global, zone: &[Record], chain: &[Record]) -> Result<Vec<Record>, NoMemory>
    ensures { IfOk result (λ whole. IsUnion zone.now chain.now whole.items) }
{
    let mut whole = copies(alloc, zone)?;
    extend_sorted(&mut whole, copies(alloc, chain)?)?;
    Ok(whole)
}

/// Copies of records.
fn copies(alloc: Global, records: &[Record]) -> Result<Vec<Record>, NoMemory>
    ensures { IfOk result (λ all. all.items ≡ records.now) }
{
    let mut all = Vec::with_capacity(alloc, records.len())?;
    for one in records {
        all.push(copied(one)?)?;
    }
    Ok(all)
}

/// A copy of a record.
pub(crate) fn copied(one: &Record) -> Result<Record, NoMemory>
    ensures { IfOk result (λ copy. copy ≡ one.now) }
{
    Ok(one.clone()?)
}
