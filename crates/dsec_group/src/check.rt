//! A group under the keys of a zone (RFC 4035 5.3).

ghost use Rattle.std.specs.Prelude.{◌≡◌, ◌≤◌, ◌<◌, ◌+◌, IfOk, None, Some, length, map, slice_get};
ghost use Rattle.dsec_spec.specs.Names.{place};
ghost use Rattle.dsec_spec.specs.Numbers.{RRSIG};
ghost use Rattle.dsec_spec.specs.Records as records;
ghost use Rattle.dsec_spec.specs.Records.{rrsig_of};
ghost use Rattle.dsec_spec.specs.Trying.{checked};
ghost use Rattle.dsec_wire.specs.Views.{key_view};
ghost use Rattle.dsec_group.specs.Checks.{IsCheck, cause_of, encloser_by};
ghost use Rattle.dsec_group.specs.Trials.{TriedSpends, comes_to, left};
ghost use Rattle.dsec_group.specs.declared.state.ValidationState.TheVariants.{Bogus, Secure};

use crate::group::Group;
use crate::limits::Limits;
use crate::memo::Memo;
use crate::state::ValidationState;
use crate::steps::Steps;
use crate::tries::{Tries, try_all};
use dsec_cause::Cause;
use dsec_crypto::Verifier;
use dsec_keys::{KeyList, TaggedKeys};
use dsec_link::RrsigExt;
use dsec_name::{Name, NoMemory};
use dsec_number::Timestamp;
use dsec_wire::{Dnskey, Record};
use std::alloc::Global;
use std::sync::ledger::Ledger;

/// What a group comes to under the keys of a zone.
#[derive(Drop)]
pub struct KeyCheck {
    /// Secure where a signature is good, and bogus where none is.
    pub state: ValidationState,
    /// The owner's rightmost labels, where the signature counts fewer than the owner has: the records are a wildcard's expansion, or stand
    /// at the wildcard's own name, whose `*` no signature counts (RFC 4035 5.3.4).
    pub closest_encloser: Option<Name>,
    /// Why no signature is good.
    pub cause: Option<Cause>,
    /// The index of the good signature in the group's `sig_set`.
    pub signature: Option<usize>,
    /// The index of its key among the keys.
    pub key: Option<usize>,
}

/// Tries the signatures of a group with the keys of the zone, which are trusted by what the caller knows: by
/// signature and then by key, in order. A pair is tried where the signature names the zone, and the key by
/// its algorithm and tag, up to the first pair that is good, and at most one more than `max_bad_signatures`; each takes one
/// step, and so one question to the verifier at most.
pub fn check_with_keys<V: Verifier, L: Ledger>(
    alloc: Global,
    group: &Group,
    zone: &Name,
    keys: &[Dnskey<'_>],
    limits: &Limits,
    t: Timestamp,
    memo: &mut impl Memo<V>,
    steps: &mut Steps<L>,
) -> Result<KeyCheck, NoMemory>
    ensures checked { IfOk result (λ check. IsCheck group.now (map key_view keys.now) check
        (checked V.accepts group.now (place zone.now) (map key_view keys.now) (limits.now.max_bad_signatures + 1) t)) }
    ensures later { steps.old ≤ steps.new }
    ensures bound { steps.new ≤ steps.old + (limits.now.max_bad_signatures + 1) }
    ensures spent { IfOk result (λ check. TriedSpends steps.old steps.new (limits.now.max_bad_signatures + 1)
        (checked V.accepts group.now (place zone.now) (map key_view keys.now) (limits.now.max_bad_signatures + 1) t)) }
{
    let keys = TaggedKeys::of(alloc, keys)?;
    check_with_tagged_keys::<V, L, TaggedKeys<'_>>(
        alloc, group, zone, &keys, limits, t, memo, steps,
    )
}

/// The same, where the keys' tags were summed before: a set of keys can be tried with many groups.
pub fn check_with_tagged_keys<V: Verifier, L: Ledger, K: KeyList>(
    alloc: Global,
    group: &Group,
    zone: &Name,
    keys: &K,
    limits: &Limits,
    t: Timestamp,
    memo: &mut impl Memo<V>,
    steps: &mut Steps<L>,
) -> Result<KeyCheck, NoMemory>
    ensures checked { IfOk result (λ check. IsCheck group.now (K.keys keys.now) check
        (checked V.accepts group.now (place zone.now) (K.keys keys.now) (limits.now.max_bad_signatures + 1) t)) }
    ensures later { steps.old ≤ steps.new }
    ensures bound { steps.new ≤ steps.old + (limits.now.max_bad_signatures + 1) }
    ensures spent { IfOk result (λ check. TriedSpends steps.old steps.new (limits.now.max_bad_signatures + 1)
        (checked V.accepts group.now (place zone.now) (K.keys keys.now) (limits.now.max_bad_signatures + 1) t)) }
{
    let room = u16::from(limits.max_bad_signatures) + 1;
    match try_all::<V, L, K>(alloc, group, zone, keys, room, t, memo, steps)? {
        Tries::Good(signature, key) => secured(alloc, group, signature, key),
        Tries::Left(left) => Ok(refused(left, room)),
    }
}

/// The check of a group whose signature and key at these indexes are good.
fn secured(alloc: Global, group: &Group, signature: usize, key: usize) -> Result<KeyCheck, NoMemory>
    requires { signature < length group.now.signatures }
    ensures state { IfOk result (λ check. check.state ≡ Secure) }
    ensures cause { IfOk result (λ check. check.cause ≡ None) }
    ensures signature { IfOk result (λ check. check.signature ≡ Some signature) }
    ensures key { IfOk result (λ check. check.key ≡ Some key) }
    ensures encloser { IfOk result (λ check. (one : records.Record) → slice_get group.now.signatures signature ≡ Some one
        → check.closest_encloser ≡ encloser_by group.now.owner (rrsig_of one.rdata)) }
{
    let closest_encloser = encloser_at(alloc, group, &group.sig_set()[signature])?;
    Ok(KeyCheck {
        state: ValidationState::Secure,
        closest_encloser,
        cause: None,
        signature: Some(signature),
        key: Some(key),
    })
}

/// The closest encloser, where the group is a wildcard's expansion by what the signature counts.
fn encloser_at(alloc: Global, group: &Group, sig: &Record) -> Result<Option<Name>, NoMemory>
    requires { sig.now.rtype ≡ RRSIG }
    ensures { IfOk result (λ found. found ≡ encloser_by group.now.owner (rrsig_of sig.now.rdata)) }
{
    match sig.rdata().rrsig() {
        Some(rrsig) => rrsig.wildcard_closest_encloser(alloc, group.leader()),
        None => Ok(None),
    }
}

/// The check of a group with no good signature, where of so many pairs so many more may be tried.
fn refused(more: u16, room: u16) -> KeyCheck
    ensures state { result.state ≡ Bogus }
    ensures cause { result.cause ≡ cause_of (comes_to {P = records.Record × records.Key} room (left more)) }
    ensures encloser { result.closest_encloser ≡ None }
    ensures signature { result.signature ≡ None }
    ensures key { result.key ≡ None }
{
    let cause = if more == room {
        Cause::NoSignature
    } else if more == 0 {
        Cause::TooManyBadSignatures
    } else {
        Cause::BadSignature
    };
    KeyCheck {
        state: ValidationState::Bogus,
        closest_encloser: None,
        cause: Some(cause),
        signature: None,
        key: None,
    }
}
