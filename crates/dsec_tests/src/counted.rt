//! A message judged on a ledger of the caller's.

ghost use Rattle.std.specs.Prelude.{◌≡◌, ◌<◌};

use crate::judged::{message, replies};
use crate::vectors::GOOD;
use dsec_anchors::TrustAnchors;
use dsec_asked::Asked;
use dsec_context::{Verdict, judge_counted_in};
use dsec_crypto::StandIn;
use dsec_found::Error;
use dsec_group::{Steps, ValidationState};
use dsec_lines::KEY;
use dsec_message::Message;
use dsec_node::{Config, OwnedCaches};
use dsec_outside::TableUpstream;
use std::alloc::Global;
use std::marker::Brand;
use std::process::Abort;
use std::sync::ledger::{Blank, Ledger};

/// The verdict on a message at the moment 500, over nothing that is held.
fn verdict_on<L: Ledger>(
    alloc: Global,
    anchors: &TrustAnchors,
    message: &Message,
    upstream: &mut TableUpstream,
    memo: &mut Asked,
    blank: Blank,
) -> Result<Verdict<StandIn>, Error>
    requires name { blank.name ≡ L.name }
    requires parts { blank.parts ≡ L.parts }
    requires some { 0 < L.parts }
{
    let mut caches = OwnedCaches::<StandIn>::new(alloc);
    let mut steps = Steps::<L>::begin(blank);
    let config = Config::new();
    let judgement = judge_counted_in(
        alloc,
        anchors,
        &config,
        &mut caches,
        memo,
        message,
        upstream,
        500,
        &mut steps,
    );
    judgement.into_answer()
}

/// How many signatures are checked for the good answer, where it is Secure after one question.
fn checks(alloc: Global) -> Option<u32> {
    let Ok(anchors) = TrustAnchors::from_u8(alloc, KEY.as_bytes()) else {
        return None;
    };
    let message = message(alloc, GOOD)?;
    let mut upstream = TableUpstream::new(replies(alloc)?);
    let mut memo = Asked { times: 0 };
    let Ok(verdict) = verdict_on::<Brand>(
        alloc,
        &anchors,
        &message,
        &mut upstream,
        &mut memo,
        Blank::new(1),
    ) else {
        return None;
    };
    let is_secure = verdict.outcome().state() == ValidationState::Secure;
    if is_secure && verdict.questions() == 1 {
        Some(memo.times)
    } else {
        None
    }
}

#[test]
fn checks_are_counted(rt: HostRuntime) {
    // The key set that the one reply brings and the message's one group are two sets, of each of which two signatures may be checked; each has one.
    assert!(rt; checks(rt.alloc()) == Some(2));
}
