//! The key of a zone (RFC 4034 2).

ghost use Rattle.std.specs.Prelude.{◌≡◌, ◌<◌, ◌/◌, ◌%◌, ◌++◌, ◌∷◌, [], IfErr, IfOk, cond, filter, length, option_map};
ghost use Rattle.dsec_spec.specs.Signed.{IsZoneKey};
ghost use Rattle.dsec_rrsig.specs.Signers.{signer_of};
ghost use Rattle.dsec_uses_signer.specs.Refusals.{RefusesData, RefusesKey};
ghost use Rattle.dsec_uses_signer.specs.Whole.{IsOwnKey, is_key, listed};
ghost use Rattle.dsec_uses_signer.specs.declared.refusal.Refusal.TheVariants as refusals;
ghost use Rattle.dsec_wire.specs.Views.{key_view};

use crate::device::Device;
use crate::refusal::Refusal;
use dsec_name::Name;
use dsec_number::Rtype;
use dsec_sign::{SigningKey, StandInKey};
use dsec_wire::{Dnskey, Record};

/// How many signatures the device gives.
const MOST: u32 = 100;

/// The record of a zone's key, and the key with a device that signs by it.
#[derive(Drop)]
pub struct OwnKey {
    /// The record.
    pub record: Record,
    /// The key.
    pub key: SigningKey<Device>,
}

/// The record of a key among those that were looked at so far, and this one.
fn more<'a>(own: Option<&'a Record>, one: &'a Record) -> Result<Option<&'a Record>, Refusal>
    ensures only { IfOk result (λ more. listed (option_map (λ r. r.now) more) ≡ listed (option_map (λ r. r.now) own.entry) ++ cond (is_key one.now) (one.now ∷ []) []) }
    ensures several { IfErr result (λ why. (why ≡ refusals.SeveralKeys)
        × (1 < length (listed (option_map (λ r. r.now) own.entry) ++ cond (is_key one.now) (one.now ∷ []) []))) }
{
    if one.rtype() != Rtype::DNSKEY {
        return Ok(own);
    }
    if own.is_some() {
        return Err(Refusal::SeveralKeys);
    }
    Ok(Some(one))
}

/// The only record of a key.
fn only_key(records: &[Record]) -> Result<&Record, Refusal>
    ensures only { IfOk result (λ own. filter is_key records.now ≡ own.now ∷ []) }
    ensures why { IfErr result (RefusesKey records.now) }
{
    let mut own = None;
    for one in records {
        own = more(own, one)?;
    }
    own.ok_or(Refusal::NoKey)
}

/// A device that signs by the key of a DNSKEY record's data.
fn device_of(dnskey: &Dnskey<'_>) -> Result<Device, Refusal>
    ensures key { IfOk result (λ device. device.key ≡ key_view dnskey.now) }
    ensures protocol { IfOk result (λ device. device.key.protocol ≡ 3) }
    ensures left { IfOk result (λ device. device.left ≡ 100) }
    ensures unasked { IfOk result (λ device. device.asked ≡ 0) }
    ensures faultless { IfOk result (λ device. device.faults ≡ 0) }
    ensures why { IfErr result (RefusesData (key_view dnskey.now)) }
{
    let Ok(key) = StandInKey::from_dnskey(dnskey) else {
        return Err(Refusal::ForeignKey);
    };
    Ok(Device::new(key, MOST))
}

/// A key that an owner signs by, which is to be for zone data (RFC 4034 2.1.1).
fn signing_key(owner: &Name, dnskey: &Dnskey<'_>) -> Result<SigningKey<Device>, Refusal>
    ensures owner { IfOk result (λ key. key.owner ≡ owner.now) }
    ensures key { IfOk result (λ key. key.inner.key ≡ key_view dnskey.now) }
    ensures flags { IfOk result (λ key. key.flags ≡ key.inner.key.flags) }
    ensures zone_key { IfOk result (λ key. IsZoneKey key.inner.key) }
    ensures left { IfOk result (λ key. key.inner.left ≡ 100) }
    ensures unasked { IfOk result (λ key. key.inner.asked ≡ 0) }
    ensures faultless { IfOk result (λ key. key.inner.faults ≡ 0) }
    ensures why { IfErr result (RefusesData (key_view dnskey.now)) }
{
    let device = device_of(dnskey)?;
    let key = SigningKey::new(owner.clone()?, dnskey.flags, device);
    if !key.is_zone_signing_key() {
        return Err(Refusal::OtherKey);
    }
    Ok(key)
}

/// The key of a zone that has the record of one, which is to be for zone data (RFC 4034 2.1.1).
pub fn own_key(records: &[Record]) -> Result<OwnKey, Refusal>
    ensures own { IfOk result (λ own. IsOwnKey records.now own.record (signer_of (λ device. device.key) own.key)) }
    ensures flags { IfOk result (λ own. own.key.flags ≡ own.key.inner.key.flags) }
    ensures zone_key { IfOk result (λ own. own.key.flags / 256 % 2 ≡ 1) }
    ensures left { IfOk result (λ own. own.key.inner.left ≡ 100) }
    ensures unasked { IfOk result (λ own. own.key.inner.asked ≡ 0) }
    ensures faultless { IfOk result (λ own. own.key.inner.faults ≡ 0) }
    ensures why { IfErr result (RefusesKey records.now) }
{
    let own = only_key(records)?;
    let Some(dnskey) = own.rdata().dnskey() else {
        return Err(Refusal::NoKey);
    };
    let key = signing_key(own.owner(), &dnskey)?;
    Ok(OwnKey {
        record: own.clone()?,
        key,
    })
}
