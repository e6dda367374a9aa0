//! Verdicts under other limits, and over an upstream that fails.

use crate::vectors::{DENIED, DENIED_LATER, FOUR, GOOD, KEYS, ONE_BAD};
use dsec_anchors::TrustAnchors;
use dsec_answer::{ValidationContext, Verdict, Why};
use dsec_cause::Cause;
use dsec_crypto::{StandIn, Verifier};
use dsec_found::JudgedGroup;
use dsec_group::ValidationState;
use dsec_lines::KEY;
use dsec_link::LinkKind;
use dsec_message::Message;
use dsec_name::Name;
use dsec_node::Config;
use dsec_number::Rtype;
use dsec_outside::{FailingUpstream, Replies, TableUpstream};
use std::alloc::Global;
use std::process::Abort;

/// The keys of `example.` for who asks for them.
pub(crate) fn replies(alloc: Global) -> Option<Replies> {
    let Ok(reply) = hex::decode(alloc, KEYS) else {
        return None;
    };
    let Ok(owner) = Name::parse(alloc, "example.") else {
        return None;
    };
    let mut replies = Replies::new(alloc);
    if replies.add(owner, Rtype::DNSKEY, Some(reply)).is_err() {
        return None;
    }
    Some(replies)
}

pub(crate) fn message(alloc: Global, text: &str) -> Option<Message> {
    let Ok(octets) = hex::decode(alloc, text) else {
        return None;
    };
    match Message::from_octets(octets) {
        Ok(message) => Some(message),
        Err(_) => None,
    }
}

/// Whether links lead from the anchor's key to a group's set.
fn is_shown<V: Verifier>(alloc: Global, judged: &JudgedGroup<V>) -> bool {
    let Some(links) = judged.links() else {
        return false;
    };
    let [first] = links else {
        return false;
    };
    match judged.last_link(alloc) {
        Ok(Some(last)) => first.kind() == LinkKind::AnchorKey && last.kind() == LinkKind::Set,
        _ => false,
    }
}

/// Whether one group is why, and shown so.
fn shows_first<V: Verifier>(alloc: Global, why: &Why<V>) -> bool {
    match why {
        Why::ByGroups(groups, _) => match groups.as_slice() {
            [one] => is_shown(alloc, one),
            _ => false,
        },
        _ => false,
    }
}

/// Whether a verdict after so many questions is bogus by this cause, or secure without one.
fn is_said<V: Verifier>(alloc: Global, verdict: &Verdict<V>, turn: &Turn) -> bool {
    let (cause, questions) = *turn;
    let outcome = verdict.outcome();
    let is_so = if cause.is_none() {
        outcome.state() == ValidationState::Secure && shows_first(alloc, outcome.why())
    } else {
        outcome.state() == ValidationState::Bogus
    };
    is_so && outcome.cause() == cause && verdict.questions() == questions
}

/// Whether these are the verdicts on a message in turn, at the moment 500.
fn are_turns<V: Verifier>(
    alloc: Global,
    context: &mut ValidationContext<V>,
    upstream: &mut FailingUpstream<'_, TableUpstream>,
    message: &mut Message,
    turns: &[Turn],
) -> bool {
    for turn in turns {
        match context.validate_msg(alloc, message, upstream, 500) {
            Ok(verdict) => {
                if !is_said(alloc, &verdict, turn) {
                    return false;
                }
            }
            Err(_) => return false,
        }
    }
    true
}

/// The cause of a verdict, if it isn't secure, and how many questions it took.
type Turn = (Option<Cause>, u32);

/// How many bad signatures are allowed and how many NSEC3 hashes made, a message, the numbers of the questions that fail, and the verdicts
/// on the message in turn: a zone's keys are kept for the next one, and a failure isn't.
type Row = (u8, u8, &'static str, &'static [u64], &'static [Turn]);

#[rattlefmt::skip]
const ROWS: [Row; 8] = [
    (1, 60, GOOD, &[], &[(None, 1), (None, 0)]),
    (1, 60, GOOD, &[0], &[(Some(Cause::NoDnskeyForAnchor), 1), (None, 1), (None, 0)]),
    (1, 60, FOUR, &[], &[(Some(Cause::TooManyBadSignatures), 1)]),
    (2, 60, FOUR, &[], &[(None, 1)]),
    (1, 60, ONE_BAD, &[], &[(None, 1)]),
    (1, 1, DENIED, &[], &[(None, 1)]),
    (1, 1, DENIED_LATER, &[], &[(Some(Cause::TooManyNsec3Hashes), 1)]),
    (1, 2, DENIED_LATER, &[], &[(None, 1)]),
];

/// How many questions turns take in all.
fn asked_in(turns: &[Turn]) -> u64 {
    let mut asked = 0u64;
    for turn in turns {
        asked = asked.saturating_add(u64::from(turn.1));
    }
    asked
}

fn row_holds(alloc: Global, row: &Row) -> Option<bool> {
    let (max_bad, max_hashes, octets, failing, turns) = *row;
    let mut message = message(alloc, octets)?;
    let Ok(anchors) = TrustAnchors::from_u8(alloc, KEY.as_bytes()) else {
        return None;
    };
    let mut config = Config::new();
    config.set_bad_signatures(max_bad);
    config.set_max_nsec3_hashes(max_hashes);
    let mut context = ValidationContext::<StandIn>::with_config(alloc, anchors, config);
    let mut upstream = FailingUpstream {
        inner: TableUpstream::new(replies(alloc)?),
        failing,
        asked: 0,
        faults: 0,
    };
    let are_so = are_turns(alloc, &mut context, &mut upstream, &mut message, turns);
    let are_counted = upstream.asked == asked_in(turns) && upstream.faults == failing.len() as u64;
    Some(are_so && are_counted)
}

fn assert_rows(rt: &impl Abort, alloc: Global, rows: &[Row]) {
    for row in rows {
        assert!(rt; row_holds(alloc, row) == Some(true));
    }
}

#[test]
fn limits_and_faults(rt: HostRuntime) {
    assert_rows(&rt, rt.alloc(), &ROWS);
}
