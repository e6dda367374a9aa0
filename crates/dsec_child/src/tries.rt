//! The signatures of a key set, tried with the keys that anchors or DS records admit (RFC 4035 5, 5.2, 5.3.1).

ghost use Rattle.std.specs.Prelude.{◌≡◌, ◌≤◌, ◌+◌, IfOk};
ghost use Rattle.std.specs.Option.{option_map};
ghost use Rattle.dsec_spec.specs.Groups.{set_in};
ghost use Rattle.dsec_spec.specs.Numbers.{DNSKEY};
ghost use Rattle.dsec_wire.specs.Views.{key_view};
ghost use Rattle.dsec_node.specs.KeyTags.{AreTags};
ghost use Rattle.dsec_child.specs.Tries.{AreWayTries, IsWayTry, TryLeaves, cause_of_key, earlier as earlier_of, key_in};
ghost use Rattle.dsec_child.specs.Ways.{ways_trial};

use crate::way::Way;
use dsec_cause::Cause;
use dsec_crypto::Verifier;
use dsec_group::{Group, Memo, Steps, Tries, try_all};
use dsec_link::{KeySearch, TaggedKey};
use dsec_name::NoMemory;
use dsec_node::tag_at;
use dsec_number::Timestamp;
use dsec_wire::Dnskey;
use std::alloc::Global;
use std::sync::ledger::Ledger;

/// What trying the signatures of a key set with the keys that ways admit comes to.
#[derive(Clone, Copy)]
pub(crate) enum WayTries {
    /// The signature at the first index is that of the key that the way at the second admits, which the record at
    /// the third says.
    Good(usize, usize, usize),
    /// No pair that was tried is good, so many more may be tried, and this is the first cause.
    Left(u16, Option<Cause>),
}

/// What trying them with the key that one way admits comes to.
#[derive(Clone, Copy)]
pub(crate) enum WayTry {
    /// The signature at the first index is that of the key, which the record at the second says.
    Good(usize, usize),
    /// No pair that was tried is good, so many more may be tried, and this is why.
    Left(u16, Option<Cause>),
}

/// Tries the signatures of a key set, whose keys have these tags, with the keys that ways admit, by way and then by
/// signature, in order, and at most `room` pairs, each in one step. Of each DS record's keys `most` are tried at most, and
/// `bad` is the cause where none of a key's signatures is good.
pub(crate) fn try_ways<V: Verifier, L: Ledger, W: Way>(
    alloc: Global,
    ways: &[W],
    most: u8,
    group: &Group,
    tags: &[u16],
    room: u16,
    bad: Cause,
    t: Timestamp,
    memo: &mut impl Memo<V>,
    steps: &mut Steps<L>,
) -> Result<WayTries, NoMemory>
    requires typed { group.now.rtype ≡ DNSKEY }
    requires tags { AreTags tags.now (set_in group.now).datas }
    ensures tries { IfOk result (AreWayTries bad (W.picks most group.now) ways.now group.now
        (ways_trial V.accepts group.now t room (W.picks most group.now) ways.now)) }
    ensures bound { steps.new ≤ steps.old + room }
{
    let mut left = room;
    let mut cause: Option<Cause> = None;
    for index in 0..ways.len() {
        let way = &ways[index];
        match try_way::<V, L, W>(alloc, way, most, group, tags, left, bad, t, memo, steps)? {
            WayTry::Good(signature, key) => return Ok(WayTries::Good(signature, index, key)),
            WayTry::Left(more, next) => {
                left = more;
                cause = earlier(cause, next);
            }
        }
    }
    Ok(WayTries::Left(left, cause))
}

/// The same with one way.
fn try_way<V: Verifier, L: Ledger, W: Way>(
    alloc: Global,
    way: &W,
    most: u8,
    group: &Group,
    tags: &[u16],
    room: u16,
    bad: Cause,
    t: Timestamp,
    memo: &mut impl Memo<V>,
    steps: &mut Steps<L>,
) -> Result<WayTry, NoMemory>
    requires typed { group.now.rtype ≡ DNSKEY }
    requires tags { AreTags tags.now (set_in group.now).datas }
    ensures tries { IfOk result (IsWayTry V.accepts group.now bad t room way.now (W.picks most group.now way.now)) }
    ensures bound { steps.new ≤ steps.old + room }
    ensures spent { IfOk result (λ tries. TryLeaves tries (λ more. steps.new + more ≤ steps.old + room)) }
{
    let index = match way.pick(most, group, tags) {
        KeySearch::FoundAt(index) => index,
        KeySearch::NotFound => return Ok(WayTry::Left(room, None)),
        KeySearch::TooMany => return Ok(WayTry::Left(room, Some(Cause::TooManyDnskeysForDs))),
    };
    let Some(key) = key_at(group, index) else {
        return Ok(WayTry::Left(room, None));
    };
    let tag = tag_at(tags, index, &key);
    let one = TaggedKey { key, tag };
    match try_all::<V, L, TaggedKey<'_>>(alloc, group, group.owner(), &one, room, t, memo, steps)? {
        Tries::Good(signature, _) => Ok(WayTry::Good(signature, index)),
        Tries::Left(more) => Ok(WayTry::Left(more, cause_after(room, more, bad))),
    }
}

/// The key that the record at an index says.
fn key_at(group: &Group, index: usize) -> Option<Dnskey<'_>>
    requires { group.now.rtype ≡ DNSKEY }
    ensures { option_map key_view result ≡ key_in group.now index }
{
    match group.rr_set().get(index) {
        Some(one) => one.rdata().dnskey(),
        None => None,
    }
}

/// Why a key shows no key set, where of `room` pairs so many more may be tried.
fn cause_after(room: u16, more: u16, bad: Cause) -> Option<Cause>
    ensures { result ≡ cause_of_key bad room more }
{
    if more < room { Some(bad) } else { None }
}

/// The first of two causes.
fn earlier(cause: Option<Cause>, next: Option<Cause>) -> Option<Cause>
    ensures { result ≡ earlier_of cause next }
{
    match cause {
        Some(_) => cause,
        None => next,
    }
}
