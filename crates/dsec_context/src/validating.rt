//! Messages judged and handed on over caches, a memo and an upstream (RFC 4033 5, RFC 4035 4.3, 4.5, 5).

ghost use Rattle.std.specs.Prelude.{◌≡◌, IfOk};
ghost use Rattle.dsec_nodes.specs.SoundOutcomes.{IsJustified};
ghost use Rattle.dsec_node.specs.Views.{bounds_of, world_of};
ghost use Rattle.dsec_context.specs.Promised.{HandsOnMessage};

use crate::handing::hand_on;
use crate::judging::judge_in;
use crate::verdict::Verdict;
use dsec_anchors::TrustAnchors;
use dsec_crypto::Verifier;
use dsec_found::Error;
use dsec_group::Memo;
use dsec_message::Message;
use dsec_node::{Caches, Config};
use dsec_outside::Upstream;
use std::alloc::Global;

/// The verdict on a message at a moment, in seconds since 1970, from these anchors. Nodes are got from the caches and put into them, and the
/// upstream is asked for what they don't have. Where caches find no memory they are passed over; a question that fails has no reply.
///
/// Where all groups are judged and none is bogus, the message is rewritten if there were duplicates, or if links show a group with TTLs greater than
/// what its signature may be kept for (RFC 2181 5, RFC 4035 5.3.3). Else, and after any error but `FormError`, it is as it came.
pub fn validate_in<V: Verifier, C: Caches<V>, M: Memo<V>, U: Upstream>(
    alloc: Global,
    anchors: &TrustAnchors,
    config: &Config,
    caches: &mut C,
    memo: &mut M,
    message: &mut Message,
    upstream: &mut U,
    now: u64,
) -> Result<Verdict<V>, Error>
    ensures handed_on { HandsOnMessage (world_of V.accepts anchors.now (bounds_of config.now) now) config.now.max_cname_dname message.old (U.table upstream.old)
        (record { held = C.held caches.old; lasting = C.lasting caches.old; asked = U.asked upstream.old; faults = U.faults upstream.old; heard = U.heard upstream.old })
        (record { held = C.held caches.new; lasting = C.lasting caches.new; asked = U.asked upstream.new; faults = U.faults upstream.new; heard = U.heard upstream.new }) result message.new }
    ensures sound { IfOk result (λ v. IsJustified (world_of V.accepts anchors.now (bounds_of config.now) now) config.now.max_cname_dname message.old v.outcome v.outcome.state) }
    ensures same_table { U.table upstream.new ≡ U.table upstream.old }
{
    let judgement = judge_in(alloc, anchors, config, caches, memo, message, upstream, now);
    hand_on(alloc, message, judgement, now)
}
