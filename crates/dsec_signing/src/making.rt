//! A zone with its key, its chain and its signatures.

ghost use Rattle.std.specs.Prelude.{◌≡◌, ◌≤◌, ◌∷◌, [], All, IfErr, IfOk, OnOk, length};
ghost use Rattle.dsec_spec.specs.CanonicalRecords.{AreOfOneClass, IsCanonical};
ghost use Rattle.dsec_spec.specs.Numbers.{IN};
ghost use Rattle.dsec_spec.specs.SignedZones.{IsUnion};
ghost use Rattle.dsec_signing.specs.Making.{AnswersSigning};
ghost use Rattle.dsec_signing.specs.Signed.{denial_of, dnskey_record};
ghost use Rattle.dsec_signing.specs.KeySets.{of_stand_in};
ghost use Rattle.dsec_rrsig.specs.Keys.{stand_in_signs};
ghost use Rattle.dsec_sign.specs.ZoneSigning.{IsZoneRefusal, SignsZone};

use crate::error::Unsigned;
use crate::key_set::{key_record, sign_key_set};
use crate::words::{Denial, FLAGS, SignWords};
use dsec_name::{Name, NoMemory};
use dsec_rrsig::{SigningError, SigningKey, StandInKey};
use dsec_sign::{SignableZoneInPlace, SigningConfig};
use dsec_sorted::{DenialConfig, InsertError, Nsec3Config, SortedRecords};
use dsec_wire::Record;
use std::alloc::Global;
use std::slice;

/// What the words make of a zone's records: the key's record is added, then the chain and the signatures, then the signature over the DNSKEY
/// set.
pub fn sign_records(
    alloc: Global,
    words: SignWords,
    records: Vec<Record>,
) -> Result<SortedRecords, Unsigned>
    requires key { length words.key.public_key ≤ 64 }
    requires class { All (λ r. r.class ≡ IN) records.items }
    ensures { AnswersSigning (λ made. made) words records.items result }
{
    let config = SigningConfig::new(
        denial_config(words.denial),
        words.inception,
        words.expiration,
    );
    let mut zone = zone_with_key(alloc, &words.apex, &words.key, records)?;
    let mut key = SigningKey::new(copied(&words.apex)?, FLAGS, words.key);
    sign_in_place(alloc, &words.apex, &config, &mut zone, &mut key)?;
    let signature = sign_key_set(
        alloc,
        &words.apex,
        zone.as_slice(),
        &mut key,
        words.inception,
        words.expiration,
    )?;
    add(&mut zone, signature)?;
    Ok(zone)
}

/// The chain that is asked for.
fn denial_config(denial: Denial) -> DenialConfig
    ensures { result ≡ denial_of denial }
{
    match denial {
        Denial::Nsec => DenialConfig::Nsec,
        Denial::Nsec3 => DenialConfig::Nsec3(Nsec3Config::default()),
    }
}

/// Adds the chain and the signatures of a zone to its records.
fn sign_in_place(
    alloc: Global,
    apex: &Name,
    config: &SigningConfig,
    zone: &mut SortedRecords,
    key: &mut SigningKey<StandInKey>,
) -> Result<(), SigningError>
    requires { AreOfOneClass zone.old }
    ensures signed { OnOk result (SignsZone stand_in_signs config.now (of_stand_in key.old ∷ []) apex.now zone.old zone.old zone.new) }
    ensures why { IfErr result (λ e. IsZoneRefusal config.now (of_stand_in key.old ∷ []) ⊥ apex.now zone.old zone.old zone.new e) }
    ensures kept { of_stand_in key.new ≡ of_stand_in key.old }
{
    in_order(zone);
    SignableZoneInPlace::sign_zone(zone, alloc, apex, config, slice::from_mut(key))
}

/// The records of a zone and of its key, in canonical order, of duplicates the first.
fn zone_with_key(
    alloc: Global,
    apex: &Name,
    key: &StandInKey,
    records: Vec<Record>,
) -> Result<SortedRecords, NoMemory>
    requires { length key.now.public_key ≤ 64 }
    ensures { IfOk result (λ zone. IsUnion records.items (dnskey_record apex.now key.now ∷ []) zone) }
{
    let mut records = records;
    records.push(key_record(alloc, apex, key)?)?;
    let mut zone = SortedRecords::new(alloc);
    zone.extend(records)?;
    Ok(zone)
}

/// Adds a record where no duplicate of it is there.
fn add(zone: &mut SortedRecords, one: Record) -> Result<(), NoMemory>
    ensures { OnOk result (IsUnion zone.old (one ∷ []) zone.new) }
{
    in_order(zone);
    match zone.insert(one) {
        Ok(()) => Ok(()),
        Err(InsertError::Duplicate(_)) => Ok(()),
        Err(InsertError::NoMemory(_)) => Err(NoMemory),
    }
}

/// That sorted records are in canonical order.
fn in_order(zone: &SortedRecords)
    ensures { IsCanonical zone.now }
{
    let _records = zone.as_slice();
}

/// A copy of a name.
fn copied(name: &Name) -> Result<Name, NoMemory>
    ensures { IfOk result (λ copy. copy ≡ name.now) }
{
    Ok(name.clone()?)
}
