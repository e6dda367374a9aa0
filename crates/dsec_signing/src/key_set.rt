//! The DNSKEY set at a zone's apex, and its signature (RFC 4035 2.2).

ghost use Rattle.std.specs.Prelude.{◌≡◌, ◌≤◌, ◌++◌, ◌∷◌, [], cond, length, IfErr, IfOk, OnOk};
ghost use Rattle.dsec_spec.specs.Names.{place};
ghost use Rattle.dsec_spec.specs.Numbers.{DNSKEY};
ghost use Rattle.dsec_spec.specs.Records.{key_octets};
ghost use Rattle.dsec_sorted.specs.Sets.{AreWithin, records_at};
ghost use Rattle.dsec_wire.specs.Views.{key_view};
ghost use Rattle.dsec_signing.specs.KeySets.{of_stand_in};
ghost use Rattle.dsec_signing.specs.Signed.{IsKeySetRefusal, IsKeySetSigned, dnskey_record, is_apex_key, keys_at};

use dsec_name::{Name, NoMemory, Octets};
use dsec_number::{Class, Rtype, Timestamp, Ttl};
use dsec_rrsig::{SignRaw, SigningError, SigningKey, StandInKey, sign_rrset};
use dsec_sorted::Rrset;
use dsec_wire::{Data, Dnskey, Record};
use std::alloc::Global;

/// The TTL of a key's record.
const KEY_TTL: u32 = 3600;

/// A key's DNSKEY record at the apex.
pub fn key_record(alloc: Global, apex: &Name, key: &StandInKey) -> Result<Record, NoMemory>
    requires { length key.now.public_key ≤ 64 }
    ensures { IfOk result (λ r. r ≡ dnskey_record apex.now key.now) }
{
    let rdata = key_data(alloc, key)?;
    let ttl = Ttl::from_secs(KEY_TTL);
    Ok(Record::new(apex.clone()?, Class::IN, ttl, rdata))
}

/// The data of a key's record.
#[tactic(auto, using(crate::proofs::KeySets::key_readable))]
fn key_data(alloc: Global, key: &StandInKey) -> Result<Data, NoMemory>
    requires { length key.now.public_key ≤ 64 }
    ensures { IfOk result (λ made. made ≡ record { rtype = DNSKEY; octets = key_octets key.now }) }
{
    let octets = octets_of(alloc, key)?;
    Ok(Data::new(Rtype::DNSKEY, Octets::new(octets)))
}

/// The octets of a key's data.
fn octets_of(alloc: Global, key: &StandInKey) -> Result<Vec<u8>, NoMemory>
    ensures { IfOk result (λ octets. octets.items ≡ key_octets key.now) }
{
    match key.dnskey() {
        Ok(dnskey) => written(alloc, &dnskey),
        Err(error) => Err(error),
    }
}

/// A key's data, written.
fn written(alloc: Global, dnskey: &Dnskey<'_>) -> Result<Vec<u8>, NoMemory>
    ensures { IfOk result (λ octets. octets.items ≡ key_octets (key_view dnskey.now)) }
{
    let mut octets = Vec::new(alloc);
    octets.extend_from_slice(&dnskey.flags.to_be_bytes())?;
    octets.push(dnskey.protocol)?;
    octets.push(dnskey.algorithm.to_int())?;
    octets.extend_from_slice(dnskey.public_key)?;
    Ok(octets)
}

/// The signature over the DNSKEY set at the apex, by the key.
pub fn sign_key_set(
    alloc: Global,
    apex: &Name,
    records: &[Record],
    key: &mut SigningKey<StandInKey>,
    inception: Timestamp,
    expiration: Timestamp,
) -> Result<Record, SigningError>
    ensures signed { IfOk result (λ r. IsKeySetSigned (of_stand_in key.old) (record { inception = inception; expiration = expiration }) (keys_at (place apex.now) records.now) r) }
    ensures why { IfErr result (λ e. IsKeySetRefusal (record { inception = inception; expiration = expiration }) (keys_at (place apex.now) records.now) e) }
    ensures kept { of_stand_in key.new ≡ of_stand_in key.old }
    ensures flags { key.new.flags ≡ key.old.flags }
{
    let places = key_places(alloc, apex, records)?;
    let set = Rrset::new_from_refs(records, &places)?;
    sign_rrset(alloc, key, &set, inception, expiration)
}

/// The places of the records of the DNSKEY set at the apex.
fn key_places(alloc: Global, apex: &Name, records: &[Record]) -> Result<Vec<usize>, NoMemory>
    ensures within { IfOk result (λ places. AreWithin records.now places.items) }
    ensures set { IfOk result (λ places. records_at records.now places.items ≡ keys_at (place apex.now) records.now) }
{
    let mut places = Vec::new(alloc);
    let mut at = 0;
    for it in records {
        note(&mut places, at, is_key_at(apex, it))?;
        at += 1;
    }
    Ok(places)
}

/// Notes a place, or doesn't.
fn note(places: &mut Vec<usize>, at: usize, is_key: bool) -> Result<(), NoMemory>
    ensures { OnOk result (places.new.items ≡ places.old.items ++ cond is_key (at ∷ []) []) }
{
    if is_key {
        places.push(at)?;
    }
    Ok(())
}

/// Whether a record is of the DNSKEY set at the apex.
fn is_key_at(apex: &Name, it: &Record) -> bool
    ensures { result ≡ is_apex_key (place apex.now) it.now }
{
    it.owner() == apex && it.class() == Class::IN && it.rtype() == Rtype::DNSKEY
}
