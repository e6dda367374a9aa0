//! A zone, signed by its own key.

ghost use Rattle.std.specs.Prelude.{◌≡◌, ◌∷◌, [], IfErr, IfOk, None, OnOk};
ghost use Rattle.dsec_rrsig.specs.Asks.{AsksRefusal, asked_of};
ghost use Rattle.dsec_rrsig.specs.Failures.{CountsRefusal};
ghost use Rattle.dsec_rrsig.specs.Keys.{stand_in_signs};
ghost use Rattle.dsec_rrsig.specs.Made.{IsSetRefusal, message_for};
ghost use Rattle.dsec_rrsig.specs.Signers.{signer_of};
ghost use Rattle.dsec_sign.specs.ZoneSigning.{SignsZone, zone_period};
ghost use Rattle.dsec_spec.specs.Outside.{Rose, risen};
ghost use Rattle.dsec_spec.specs.Signatures.{IsSignature};
ghost use Rattle.dsec_uses_signer.specs.Refusals.{LeavesUnsigned, RefusesKeySet, RefusesText, RefusesZone, SaysNone};
ghost use Rattle.dsec_uses_signer.specs.Whole.{SaysZone, SignsKey, SignsText, SignsWhole};

use crate::device::Device;
use crate::keys::{OwnKey, own_key};
use crate::refusal::Refusal;
use dsec_name::Name;
use dsec_number::Timestamp;
use dsec_sign::{SignableZoneInPlace, SigningConfig, SigningError, SigningKey, sign_rrset};
use dsec_signing::read_zone;
use dsec_sorted::{DenialConfig, Rrset, SortedRecords, is_of_one_class};
use dsec_wire::Record;
use std::alloc::Global;
use std::slice;

/// Adds to a zone its NSEC records, and a signature by the key of each set that is to be signed but its keys, and nothing else (RFC 4035 2).
fn sign(
    alloc: Global,
    apex: &Name,
    zone: &mut SortedRecords,
    config: &SigningConfig,
    key: &mut SigningKey<Device>,
) -> Result<(), Refusal>
    ensures signed { OnOk result (SignsZone stand_in_signs config.now (signer_of (λ device. device.key) key.old ∷ []) apex.now zone.old zone.old zone.new) }
    ensures kept { signer_of (λ device. device.key) key.new ≡ signer_of (λ device. device.key) key.old }
    ensures flags { key.new.flags ≡ key.old.flags }
    ensures faultless { OnOk result (key.new.inner.faults ≡ key.old.inner.faults) }
    ensures why { IfErr result (RefusesZone config.now (signer_of (λ device. device.key) key.old) apex.now zone.old zone.new) }
{
    if !is_of_one_class(zone.as_slice()) {
        return Err(Refusal::SeveralClasses);
    }
    SignableZoneInPlace::sign_zone(zone, alloc, apex, config, slice::from_mut(key))?;
    Ok(())
}

/// Adds to a zone the signature over the record of its key by that key.
fn sign_key(
    alloc: Global,
    zone: &mut SortedRecords,
    config: &SigningConfig,
    own: &Record,
    key: &mut SigningKey<Device>,
) -> Result<(), Refusal>
    ensures signed { OnOk result (SignsKey (zone_period config.now) own.now (signer_of (λ device. device.key) key.old) zone.old zone.new) }
    ensures kept { signer_of (λ device. device.key) key.new ≡ signer_of (λ device. device.key) key.old }
    ensures flags { key.new.flags ≡ key.old.flags }
    ensures faultless { OnOk result (key.new.inner.faults ≡ key.old.inner.faults) }
    ensures asks { OnOk result (key.new.inner.asked ≡ risen key.old.inner.asked) }
    ensures why { IfErr result (RefusesKeySet config.now own.now) }
{
    let signature = key_signature(alloc, config, own, key)?;
    zone.extend(vec![in alloc; signature]?)?;
    Ok(())
}

/// The signature over the record of a zone's key by that key.
fn key_signature(
    alloc: Global,
    config: &SigningConfig,
    own: &Record,
    key: &mut SigningKey<Device>,
) -> Result<Record, SigningError>
    ensures signed { IfOk result (λ signature. IsSignature stand_in_signs (zone_period config.now) (own.now ∷ [], signer_of (λ device. device.key) key.old) signature) }
    ensures kept { signer_of (λ device. device.key) key.new ≡ signer_of (λ device. device.key) key.old }
    ensures flags { key.new.flags ≡ key.old.flags }
    ensures counts { CountsRefusal key.old.inner.faults key.new.inner.faults result }
    ensures why { IfErr result (IsSetRefusal own.now.rtype (zone_period config.now) (Rose key.old.inner.faults key.new.inner.faults)) }
    ensures asks { AsksRefusal (message_for (signer_of (λ device. device.key) key.old) (zone_period config.now) (own.now ∷ [])) (asked_of (λ device. device.key) (λ device. device.asked) (λ _. None) key.old) (asked_of (λ device. device.key) (λ device. device.asked) (λ _. None) key.new) result }
{
    let set = Rrset::new_from_owned(slice::from_ref(own))?;
    sign_rrset(alloc, key, &set, config.inception, config.expiration)
}

/// Signs a zone by its own key, the set of the key too.
fn sign_whole(alloc: Global, zone: &mut SortedRecords) -> Result<(), Refusal>
    ensures signed { OnOk result (SignsWhole zone.old zone.new) }
    ensures why { IfErr result (LeavesUnsigned zone.old) }
{
    let OwnKey { record, mut key } = own_key(zone.as_slice())?;
    let (inception, expiration) = (Timestamp::from_int(0), Timestamp::from_int(1000));
    let config = SigningConfig::new(DenialConfig::Nsec, inception, expiration);
    sign(alloc, record.owner(), zone, &config, &mut key)?;
    sign_key(alloc, zone, &config, &record, &mut key)?;
    Ok(())
}

/// The records of a zone text, in canonical order, of duplicates the first.
fn zone_of(alloc: Global, text: &[u8]) -> Result<SortedRecords, Refusal>
    ensures says { IfOk result (λ zone. SaysZone text.now zone) }
    ensures why { IfErr result (SaysNone text.now) }
{
    let records = read_zone(alloc, text)?;
    let mut zone = SortedRecords::new(alloc);
    zone.extend(records)?;
    Ok(zone)
}

/// The zone of a text, signed.
pub fn signed_zone(alloc: Global, text: &[u8]) -> Result<SortedRecords, Refusal>
    ensures signed { IfOk result (λ made. SignsText text.now made) }
    ensures why { IfErr result (RefusesText text.now) }
{
    let mut zone = zone_of(alloc, text)?;
    sign_whole(alloc, &mut zone)?;
    Ok(zone)
}
