//! Key sets that anchors or DS records admit (RFC 4035 5, 5.2).

ghost use Rattle.std.specs.Prelude.{◌≡◌, ◌≤◌, ◌<◌, ◌+◌, ◌↔◌, IfOk, filter, length, map, take};
ghost use Rattle.dsec_spec.specs.Groups.{set_in};
ghost use Rattle.dsec_spec.specs.Numbers.{DNSKEY};
ghost use Rattle.dsec_wire.specs.DataViews.{ds_view};
ghost use Rattle.dsec_nodes.specs.Admission.{anchor_search, cause_among};
ghost use Rattle.dsec_nodes.specs.Causes.{BadSignature, BadSignatureForDnskey};
ghost use Rattle.dsec_node.specs.KeyTags.{AreTags};
ghost use Rattle.dsec_child.specs.Admissions.{IsAdmission, cause_left, ds_cause, ds_cause_left, tried_at, tried_ds, usable_ds};

use crate::tries::{WayTries, try_ways};
use crate::way::is_supported;
use dsec_cause::Cause;
use dsec_crypto::Verifier;
use dsec_group::{Group, Memo, Steps};
use dsec_name::NoMemory;
use dsec_node::{Config, key_tags};
use dsec_number::Timestamp;
use dsec_wire::{Ds, Record};
use std::alloc::Global;
use std::sync::ledger::Ledger;

/// Which anchor or DS record admits a key of a key set, and which signature is that key's.
#[derive(Clone, Copy, Debug, PartialEq, Eq)]
pub struct Admission {
    /// The index of the anchor or of the DS record.
    pub via: usize,
    /// The index of the key's record in the set.
    pub key: usize,
    /// The index of the signature in the group's `sig_set`.
    pub signature: usize,
}

/// Which of these anchors admits a key of the set that has signed it, or why none does: a DNSKEY anchor at the set's
/// owner admits its own key, a DS anchor the first that it speaks of. By anchor and then by signature, in order, at most one
/// more pair is tried than `max_bad_signatures`, up to the first that is good, each in one step. The group's class isn't looked at: that
/// it is IN the caller has to know.
pub fn admit_by_anchor<V: Verifier, L: Ledger>(
    alloc: Global,
    anchors: &[Record],
    group: &Group,
    config: &Config,
    t: Timestamp,
    memo: &mut impl Memo<V>,
    steps: &mut Steps<L>,
) -> Result<Result<Admission, Cause>, NoMemory>
    requires { group.now.rtype ≡ DNSKEY }
    ensures admitted { IfOk result (IsAdmission anchors.now group.now
        (cause_among BadSignature group.now (anchor_search config.now.max_dnskeys_per_ds group.now) anchors.now)
        (tried_at V.accepts group.now t (config.now.max_bad_signatures + 1) (anchor_search config.now.max_dnskeys_per_ds group.now) anchors.now)) }
    ensures bound { steps.new ≤ steps.old + (config.now.max_bad_signatures + 1) }
{
    let tags = key_tags(alloc, group)?;
    admitted_by_anchor::<V, L>(alloc, anchors, group, &tags, config, t, memo, steps)
}

/// The same, where the tags of the set's keys are these.
pub(crate) fn admitted_by_anchor<V: Verifier, L: Ledger>(
    alloc: Global,
    anchors: &[Record],
    group: &Group,
    tags: &[u16],
    config: &Config,
    t: Timestamp,
    memo: &mut impl Memo<V>,
    steps: &mut Steps<L>,
) -> Result<Result<Admission, Cause>, NoMemory>
    requires typed { group.now.rtype ≡ DNSKEY }
    requires tags { AreTags tags.now (set_in group.now).datas }
    ensures admitted { IfOk result (IsAdmission anchors.now group.now
        (cause_among BadSignature group.now (anchor_search config.now.max_dnskeys_per_ds group.now) anchors.now)
        (tried_at V.accepts group.now t (config.now.max_bad_signatures + 1) (anchor_search config.now.max_dnskeys_per_ds group.now) anchors.now)) }
    ensures bound { steps.new ≤ steps.old + (config.now.max_bad_signatures + 1) }
{
    let most = config.max_dnskeys_per_ds();
    let room = u16::from(config.max_bad_signatures()) + 1;
    by_anchors::<V, L>(alloc, anchors, most, group, tags, room, t, memo, steps)
}

/// Which of these DS records admits a key of the set that has signed it, or why none does: each the first key that it speaks
/// of. Records of an unknown algorithm or digest are passed over, and of the others `max_ds_records` are tried at most. By record and
/// then by signature, in order, at most one more pair is tried than `max_bad_signatures`, up to the first that is good, each in one step.
/// The group's class isn't looked at: that it is IN the caller has to know.
pub fn admit_by_ds<V: Verifier, L: Ledger>(
    alloc: Global,
    ds: &[Ds<'_>],
    group: &Group,
    config: &Config,
    t: Timestamp,
    memo: &mut impl Memo<V>,
    steps: &mut Steps<L>,
) -> Result<Result<Admission, Cause>, NoMemory>
    requires { group.now.rtype ≡ DNSKEY }
    ensures admitted { IfOk result (IsAdmission (map ds_view ds.now) group.now
        (ds_cause config.now.max_dnskeys_per_ds config.now.max_ds_records group.now (map ds_view ds.now))
        (tried_ds V.accepts group.now t (config.now.max_bad_signatures + 1) config.now.max_dnskeys_per_ds config.now.max_ds_records (map ds_view ds.now))) }
    ensures bound { steps.new ≤ steps.old + (config.now.max_bad_signatures + 1) }
{
    let tags = key_tags(alloc, group)?;
    admitted_by_ds::<V, L>(alloc, ds, group, &tags, config, t, memo, steps)
}

/// The same, where the tags of the set's keys are these.
pub(crate) fn admitted_by_ds<V: Verifier, L: Ledger>(
    alloc: Global,
    ds: &[Ds<'_>],
    group: &Group,
    tags: &[u16],
    config: &Config,
    t: Timestamp,
    memo: &mut impl Memo<V>,
    steps: &mut Steps<L>,
) -> Result<Result<Admission, Cause>, NoMemory>
    requires typed { group.now.rtype ≡ DNSKEY }
    requires tags { AreTags tags.now (set_in group.now).datas }
    ensures admitted { IfOk result (IsAdmission (map ds_view ds.now) group.now
        (ds_cause config.now.max_dnskeys_per_ds config.now.max_ds_records group.now (map ds_view ds.now))
        (tried_ds V.accepts group.now t (config.now.max_bad_signatures + 1) config.now.max_dnskeys_per_ds config.now.max_ds_records (map ds_view ds.now))) }
    ensures bound { steps.new ≤ steps.old + (config.now.max_bad_signatures + 1) }
{
    let most = config.max_dnskeys_per_ds();
    let max = config.max_ds_records();
    let room = u16::from(config.max_bad_signatures()) + 1;
    by_ds::<V, L>(alloc, ds, most, max, group, tags, room, t, memo, steps)
}

/// The same by anchors, where `most` keys of a DS anchor are tried, and `room` pairs.
fn by_anchors<V: Verifier, L: Ledger>(
    alloc: Global,
    anchors: &[Record],
    most: u8,
    group: &Group,
    tags: &[u16],
    room: u16,
    t: Timestamp,
    memo: &mut impl Memo<V>,
    steps: &mut Steps<L>,
) -> Result<Result<Admission, Cause>, NoMemory>
    requires typed { group.now.rtype ≡ DNSKEY }
    requires tags { AreTags tags.now (set_in group.now).datas }
    requires some { 0 < room }
    ensures admitted { IfOk result (IsAdmission anchors.now group.now
        (cause_among BadSignature group.now (anchor_search most group.now) anchors.now)
        (tried_at V.accepts group.now t room (anchor_search most group.now) anchors.now)) }
    ensures bound { steps.new ≤ steps.old + room }
{
    let bad = Cause::BadSignature;
    match try_ways::<V, L, Record>(alloc, anchors, most, group, tags, room, bad, t, memo, steps)? {
        WayTries::Good(signature, via, key) => Ok(Ok(Admission {
            via,
            key,
            signature,
        })),
        WayTries::Left(left, cause) => Ok(Err(cause_of(left, cause))),
    }
}

/// The same by DS records, of which `max` are tried, and `most` keys of each.
fn by_ds<V: Verifier, L: Ledger>(
    alloc: Global,
    ds: &[Ds<'_>],
    most: u8,
    max: u8,
    group: &Group,
    tags: &[u16],
    room: u16,
    t: Timestamp,
    memo: &mut impl Memo<V>,
    steps: &mut Steps<L>,
) -> Result<Result<Admission, Cause>, NoMemory>
    requires typed { group.now.rtype ≡ DNSKEY }
    requires tags { AreTags tags.now (set_in group.now).datas }
    requires some { 0 < room }
    ensures admitted { IfOk result (IsAdmission (map ds_view ds.now) group.now
        (ds_cause most max group.now (map ds_view ds.now))
        (tried_ds V.accepts group.now t room most max (map ds_view ds.now))) }
    ensures bound { steps.new ≤ steps.old + room }
{
    let front = front_of(ds, max);
    let tried = &ds[..front];
    let bad = Cause::BadSignatureForDnskey;
    match try_ways::<V, L, Ds<'_>>(alloc, tried, most, group, tags, room, bad, t, memo, steps)? {
        WayTries::Good(signature, via, key) => Ok(Ok(Admission {
            via,
            key,
            signature,
        })),
        WayTries::Left(left, cause) => Ok(Err(cause_of_ds(left, cause, front < ds.len()))),
    }
}

/// How many DS records stand before the first that is past so many of a known algorithm and digest.
fn front_of(ds: &[Ds<'_>], most: u8) -> usize
    ensures within { result ≤ length ds.now }
    ensures front { filter usable_ds (take result (map ds_view ds.now)) ≡ take most (filter usable_ds (map ds_view ds.now)) }
    ensures more { (result < length ds.now) ↔ (most < length (filter usable_ds (map ds_view ds.now))) }
{
    let mut left = most;
    for index in 0..ds.len() {
        if is_supported(&ds[index]) {
            if left == 0 {
                return index;
            }
            left -= 1;
        }
    }
    ds.len()
}

/// Why no key is admitted, where so many more pairs may be tried.
fn cause_of(left: u16, cause: Option<Cause>) -> Cause
    ensures { result ≡ cause_left left cause }
{
    if left == 0 {
        return Cause::TooManyBadSignaturesForDnskey;
    }
    match cause {
        Some(cause) => cause,
        None => Cause::NoSignature,
    }
}

/// The same by DS records, where there are more than are tried or not.
fn cause_of_ds(left: u16, cause: Option<Cause>, more: bool) -> Cause
    ensures { result ≡ ds_cause_left left cause more }
{
    if left > 0 && more {
        return Cause::TooManyDsRecords;
    }
    cause_of(left, cause)
}
