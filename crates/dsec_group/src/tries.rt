//! Signatures and keys, tried in order (RFC 4035 5.3.1, 5.3.3).

ghost use Rattle.std.specs.Prelude.{◌≡◌, ◌≤◌, ◌+◌, IfOk};
ghost use Rattle.dsec_spec.specs.Names.{place};
ghost use Rattle.dsec_spec.specs.Numbers.{RRSIG};
ghost use Rattle.dsec_group.specs.Trials.{AreKeyTries, AreTries, KeysSpend, TriesSpend, key_trial, pair_trial};

use crate::cached::{check_signature, is_by};
use crate::group::Group;
use crate::memo::Memo;
use crate::steps::Steps;
use dsec_crypto::Verifier;
use dsec_keys::KeyList;
use dsec_name::{Name, NoMemory};
use dsec_number::Timestamp;
use dsec_wire::Record;
use std::alloc::Global;
use std::sync::ledger::Ledger;

/// What trying the signatures of a group with keys comes to.
#[derive(Clone, Copy)]
pub enum Tries {
    /// The signature at the first index is the key's at the second.
    Good(usize, usize),
    /// No pair that was tried is good, and so many more may be tried.
    Left(u16),
}

/// What trying a signature with keys comes to.
#[derive(Clone, Copy)]
pub(crate) enum KeyTries {
    /// The signature is that of the key at the index.
    Good(usize),
    /// It is that of no key that was tried, and so many more may be tried.
    Left(u16),
}

/// Tries each signature of the group with each key that it names, in order, and at most `room` pairs, each in one
/// step; a signature names a key by the zone as its signer, and by algorithm and tag (RFC 4035 5.3.1).
pub fn try_all<V: Verifier, L: Ledger, K: KeyList>(
    alloc: Global,
    group: &Group,
    zone: &Name,
    keys: &K,
    room: u16,
    t: Timestamp,
    memo: &mut impl Memo<V>,
    steps: &mut Steps<L>,
) -> Result<Tries, NoMemory>
    ensures tries { IfOk result (λ tries. AreTries group.now.signatures (K.keys keys.now) tries
        (pair_trial V.accepts group.now (place zone.now) t room group.now.signatures (K.keys keys.now))) }
    ensures later { steps.old ≤ steps.new }
    ensures bound { steps.new ≤ steps.old + room }
    ensures spent { IfOk result (λ tries. TriesSpend steps.old steps.new room tries) }
{
    let signatures = group.sig_set();
    let mut left = room;
    for index in 0..signatures.len() {
        let sig = &signatures[index];
        match try_signature::<V, L, K>(alloc, group, sig, zone, keys, left, t, memo, steps)? {
            KeyTries::Good(key) => return Ok(Tries::Good(index, key)),
            KeyTries::Left(more) => left = more,
        }
    }
    Ok(Tries::Left(left))
}

/// Tries a signature with each key that it names, in order, and at most so many of them.
fn try_signature<V: Verifier, L: Ledger, K: KeyList>(
    alloc: Global,
    group: &Group,
    sig: &Record,
    zone: &Name,
    keys: &K,
    room: u16,
    t: Timestamp,
    memo: &mut impl Memo<V>,
    steps: &mut Steps<L>,
) -> Result<KeyTries, NoMemory>
    requires { sig.now.rtype ≡ RRSIG }
    ensures tries { IfOk result (λ tries. AreKeyTries sig.now (K.keys keys.now) tries
        (key_trial V.accepts group.now (place zone.now) t room sig.now (K.keys keys.now))) }
    ensures later { steps.old ≤ steps.new }
    ensures bound { steps.new ≤ steps.old + room }
    ensures spent { IfOk result (λ tries. KeysSpend steps.old steps.new room tries) }
{
    let Some(rrsig) = sig.rdata().rrsig() else {
        return Ok(KeyTries::Left(room));
    };
    // Of another zone's signature no key needs a look, however many there are.
    if !is_by(&rrsig, zone) {
        return Ok(KeyTries::Left(room));
    }
    let (algorithm, tag) = (rrsig.algorithm, rrsig.key_tag);
    let mut left = room;
    let mut from = 0;
    while let Some(index) = keys.next_named(algorithm, tag, from) {
        if left == 0 {
            return Ok(KeyTries::Left(0));
        }
        let key = keys.key_at(index);
        let step = steps.tick();
        if check_signature::<V>(alloc, group, &rrsig, &key, zone, memo, t, step)? {
            return Ok(KeyTries::Good(index));
        }
        left -= 1;
        from = index + 1;
    }
    Ok(KeyTries::Left(left))
}
