//! One signature's check, by answers that are kept (RFC 4035 5.3).

ghost use Rattle.std.specs.Prelude.{◌≡◌, ◌↔◌, ◌<◌, IfOk, IsTrue};
ghost use Rattle.dsec_spec.specs.Groups.{set_in};
ghost use Rattle.dsec_spec.specs.Names.{place};
ghost use Rattle.dsec_spec.specs.Signed.{names_key as names_in, signs};
ghost use Rattle.dsec_wire.specs.TypedData.{data_of};
ghost use Rattle.dsec_wire.specs.Views.{key_view, rrsig_view};
ghost use Rattle.dsec_link.specs.TaggedKeys.{tagged_view};
ghost use Rattle.dsec_group.specs.Checks.{IsOfKey, IsSignedBy};

use crate::group::Group;
use crate::memo::Memo;
use crate::steps::{Step, Steps};
use dsec_crypto::Verifier;
use dsec_link::{RecordSet, TaggedKey, matches, may_sign, signed_bytes};
use dsec_name::{Name, NoMemory};
use dsec_number::Timestamp;
use dsec_wire::{Data, Dnskey, Record, Rrsig};
use std::alloc::Global;
use std::marker::Brand;
use std::sync::ledger::{Blank, Ledger};

impl Group {
    /// Whether the record is a signature over the group's records that counts at the moment t as the key's, where
    /// `signer_name` is the zone (RFC 4035 5.3.1, 5.3.3). The key stands at `key_name` and has the tag
    /// `key_tag`. Whether it is in the zone's DNSKEY set is the caller's to see.
    pub fn check_sig_cached<V: Verifier>(
        &self,
        alloc: Global,
        sig: &Record,
        signer_name: &Name,
        key: &Dnskey<'_>,
        key_name: &Name,
        key_tag: u16,
        memo: &mut impl Memo<V>,
        t: Timestamp,
    ) -> Result<bool, NoMemory>
        ensures { IfOk result (λ yes. IsTrue yes
            ↔ IsSignedBy V.accepts self.now sig.now (place signer_name.now) (key_view key.now) (place key_name.now) key_tag t) }
    {
        let Some(rrsig) = sig.rdata().rrsig() else {
            return Ok(false);
        };
        let key = TaggedKey::new(key);
        if !is_of_key(self, sig, signer_name, &key, key_name, key_tag) {
            return Ok(false);
        }
        check_once::<V, Brand>(
            alloc,
            self,
            &rrsig,
            &key,
            signer_name,
            memo,
            t,
            Blank::new(1),
        )
    }
}

/// Whether the record stands at the group's owner and class, and the key at the zone's name and with this tag.
fn is_of_key(
    group: &Group,
    sig: &Record,
    zone: &Name,
    key: &TaggedKey<'_>,
    key_name: &Name,
    key_tag: u16,
) -> bool
    ensures { IsTrue result
        ↔ IsOfKey group.now sig.now (place zone.now) (tagged_view key.now) (place key_name.now) key_tag }
{
    same_name(sig.owner(), group.owner())
        && sig.class() == group.class()
        && same_name(key_name, zone)
        && key_tag == key.tag
}

/// Whether the names are one, ASCII case aside (RFC 4343 3).
#[tactic(auto, using(dsec_spec::proofs::CanonicalNames::same_place_decides))]
fn same_name(a: &Name, b: &Name) -> bool
    ensures { IsTrue result ↔ (place a.now ≡ place b.now) }
{
    *a == *b
}

/// The check of one signature in one step, on a ledger that the blank opens.
fn check_once<V: Verifier, L: Ledger>(
    alloc: Global,
    group: &Group,
    rrsig: &Rrsig<'_>,
    key: &TaggedKey<'_>,
    zone: &Name,
    memo: &mut impl Memo<V>,
    t: Timestamp,
    blank: Blank,
) -> Result<bool, NoMemory>
    requires name { blank.name ≡ L.name }
    requires parts { blank.parts ≡ L.parts }
    requires shared { 0 < L.parts }
    ensures { IfOk result (λ yes. yes ≡ signs V.accepts (set_in group.now) (place zone.now) t (rrsig_view rrsig.now) (tagged_view key.now)) }
{
    let mut steps = Steps::<L>::begin(blank);
    check_signature::<V>(alloc, group, rrsig, key, zone, memo, t, steps.tick())
}

/// Whether the signature, which stands beside the group's records, counts at the moment t as the zone key's over
/// them. The verifier is asked only where all other tests have passed, which take no memory.
pub(crate) fn check_signature<V: Verifier>(
    alloc: Global,
    group: &Group,
    rrsig: &Rrsig<'_>,
    key: &TaggedKey<'_>,
    zone: &Name,
    memo: &mut impl Memo<V>,
    t: Timestamp,
    step: Step,
) -> Result<bool, NoMemory>
    ensures { IfOk result (λ yes. yes ≡ signs V.accepts (set_in group.now) (place zone.now) t (rrsig_view rrsig.now) (tagged_view key.now)) }
{
    let (owner, rtype) = (group.owner(), group.rtype());
    if !may_sign(owner, rtype, rrsig, &key.key, zone, t) {
        return Ok(false);
    }
    if !names_key(rrsig, key, zone) {
        return Ok(false);
    }
    let message = signed_bytes(alloc, rrsig, owner, group.class(), rtype, group.rr_set())?;
    Ok(is_accepted::<V>(rrsig, &key.key, &message, memo, step))
}

/// Whether the signature names the zone as its signer.
pub(crate) fn is_by(rrsig: &Rrsig<'_>, zone: &Name) -> bool
    ensures { IsTrue result ↔ (place (rrsig_view rrsig.now).signer ≡ place zone.now) }
{
    rrsig.signer_name.is(zone)
}

/// Whether the signature names the zone as its signer, and the key by its algorithm and tag.
pub(crate) fn names_key(rrsig: &Rrsig<'_>, key: &TaggedKey<'_>, zone: &Name) -> bool
    ensures { result ≡ names_in (place zone.now) (rrsig_view rrsig.now) (tagged_view key.now) }
{
    matches(rrsig, key, zone)
}

/// The verifier's answer, from the memo where it is kept there, and then kept.
fn is_accepted<V: Verifier>(
    rrsig: &Rrsig<'_>,
    key: &Dnskey<'_>,
    message: &[u8],
    memo: &mut impl Memo<V>,
    step: Step,
) -> bool
    ensures { result ≡ V.accepts key.now.flags key.now.protocol key.now.algorithm key.now.public_key.now message.now rrsig.now.signature.now }
{
    let (flags, protocol, algorithm) = (key.flags, key.protocol, key.algorithm.to_int());
    let (octets, signature) = (key.public_key, rrsig.signature);
    if let Ok(Some(yes)) = memo.get_check(flags, protocol, algorithm, octets, message, signature) {
        return yes;
    }
    let yes = step.ask::<V>(flags, protocol, algorithm, octets, message, signature);
    // An answer that finds no room in the memo is as true.
    memo.put_check(flags, protocol, algorithm, octets, message, signature, yes)
        .unwrap_or(());
    yes
}

/// The group's records as a set.
pub fn set_of(alloc: Global, group: &Group) -> Result<RecordSet, NoMemory>
    ensures { IfOk result (λ set. set ≡ set_in group.now) }
{
    let records = group.rr_set();
    let mut datas = Vec::with_capacity(alloc, records.len())?;
    for record in records {
        datas.push(copied(record)?)?;
    }
    let owner = owner_of(group)?;
    Ok(RecordSet::new(owner, group.class(), group.rtype(), datas))
}

/// A copy of a record's data.
fn copied(one: &Record) -> Result<Data, NoMemory>
    ensures { IfOk result (λ copy. copy ≡ data_of one.now) }
{
    Ok(one.rdata().clone()?)
}

/// A copy of a group's owner.
fn owner_of(group: &Group) -> Result<Name, NoMemory>
    ensures { IfOk result (λ name. name ≡ group.now.owner) }
{
    Ok(group.owner().clone()?)
}
