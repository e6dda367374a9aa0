//! Judges DNS replies, each a line of the standard input in hex, and says which are Secure: by an anchor, a verifier and an upstream of its own.
#![tactic(auto)]

mod resolver;
mod verifier;

ghost use Rattle.std.specs.Prelude.{◌≡◌, IfOk, IfSome, OnOk, Some};
ghost use Rattle.dsec_context.specs.Setting.{world_at};
ghost use Rattle.dsec_node.specs.Caches.{held_in, lasting_in};
ghost use Rattle.dsec_nodes.specs.SoundOutcomes.{IsSound};
ghost use Rattle.dsec_uses_validator.specs.Accepted.{by_one_algorithm};
ghost use Rattle.dsec_outside.specs.Faults.{CountsWrites};
ghost use Rattle.dsec_uses_validator.specs.Found.{Finds, Tells, TellsLine, found_line};
ghost use Rattle.dsec_word.specs.Words.{hex_in};

use anyhow::Context;
use dsec_anchors::TrustAnchors;
use dsec_context::{Error, ValidationContext, Verdict};
use dsec_group::ValidationState;
use dsec_message::Message;
use dsec_outside::{Halt, Sink, Upstream, Writing, send};
use dsec_word::read_hex;
use resolver::Resolver;
use std::alloc::Global;
use verifier::OneAlgorithm;

/// The moment at which replies are judged, in seconds since 1970.
const NOW: u64 = 500;

/// The key of the zone that is trusted.
const ANCHOR: &str = "example. 3600 IN DNSKEY 257 3 13 AQI=";

/// The verdict on a reply, if it is Secure: the reply answers by sets that signatures lead to from the context's anchors, or denies so
/// (RFC 4033 5). None where the verdict is another. An error where the reply isn't judged. What is left of the reply may be handed on.
fn secure_verdict<U: Upstream>(
    alloc: Global,
    context: &mut ValidationContext<OneAlgorithm>,
    reply: &mut Message,
    upstream: &mut U,
    now: u64,
) -> Result<Option<Verdict<OneAlgorithm>>, Error>
    ensures sound { IfOk result (λ found. IfSome found (λ v. IsSound (world_at by_one_algorithm context.old.anchors context.old.config now) context.old.config.max_cname_dname reply.old v.outcome)) }
    ensures finds { Finds (world_at by_one_algorithm context.old.anchors context.old.config now) context.old.config.max_cname_dname reply.old (U.table upstream.old)
        (record { held = Some (held_in context.old.nodes); lasting = lasting_in context.old.nodes context.old.wants; asked = U.asked upstream.old; faults = U.faults upstream.old; heard = U.heard upstream.old })
        (record { held = Some (held_in context.new.nodes); lasting = lasting_in context.new.nodes context.new.wants; asked = U.asked upstream.new; faults = U.faults upstream.new; heard = U.heard upstream.new }) result reply.new }
    ensures same_anchors { context.new.anchors ≡ context.old.anchors }
    ensures same_config { context.new.config ≡ context.old.config }
{
    let verdict = context.validate_msg(alloc, reply, upstream, now)?;
    match verdict.outcome().state() {
        ValidationState::Secure => Ok(Some(verdict)),
        _ => Ok(None),
    }
}

/// The reply of a line in hex.
fn read_reply(alloc: Global, line: &str) -> anyhow::Result<Message>
    ensures { IfOk result (λ reply. hex_in line.now ≡ Some reply) }
{
    let octets = read_hex(alloc, line.as_bytes()).ok().context("no hex")?;
    Message::from_octets(octets.into_vec()).map_err(anyhow::Error::msg)
}

/// What is written of a reply.
fn line_of(found: &Result<Option<Verdict<OneAlgorithm>>, Error>) -> &'static str
    ensures { result.now ≡ found_line found.now }
{
    match found {
        Ok(Some(_)) => "secure: true\n",
        Ok(None) => "secure: false\n",
        Err(_) => "refused\n",
    }
}

/// Judges a reply, and writes whether it is Secure, or that it isn't judged.
fn tell<U: Upstream, K: Sink>(
    alloc: Global,
    context: &mut ValidationContext<OneAlgorithm>,
    reply: &mut Message,
    upstream: &mut U,
    now: u64,
    sink: &mut K,
) -> Result<(), Halt>
    ensures told { OnOk result (Tells (world_at by_one_algorithm context.old.anchors context.old.config now) context.old.config.max_cname_dname reply.old (U.table upstream.old)
        (record { held = Some (held_in context.old.nodes); lasting = lasting_in context.old.nodes context.old.wants; asked = U.asked upstream.old; faults = U.faults upstream.old; heard = U.heard upstream.old })
        (record { held = Some (held_in context.new.nodes); lasting = lasting_in context.new.nodes context.new.wants; asked = U.asked upstream.new; faults = U.faults upstream.new; heard = U.heard upstream.new })
        (K.written sink.old) (K.written sink.new) reply.new) }
    ensures counts { CountsWrites (K.faults sink.old) (K.faults sink.new) result }
    ensures same_anchors { context.new.anchors ≡ context.old.anchors }
    ensures same_config { context.new.config ≡ context.old.config }
{
    let found = secure_verdict(alloc, context, reply, upstream, now);
    let line = line_of(&found);
    drop(found);
    send(sink, line.as_bytes())
}

/// Judges the reply of a line, and writes whether it is Secure, or that it isn't judged. A line that is no reply is an error.
fn judge<U: Upstream, K: Sink>(
    alloc: Global,
    line: &str,
    context: &mut ValidationContext<OneAlgorithm>,
    upstream: &mut U,
    sink: &mut K,
) -> anyhow::Result<()>
    ensures told { OnOk result (TellsLine (world_at by_one_algorithm context.old.anchors context.old.config 500) context.old.config.max_cname_dname line.now (U.table upstream.old)
        (record { held = Some (held_in context.old.nodes); lasting = lasting_in context.old.nodes context.old.wants; asked = U.asked upstream.old; faults = U.faults upstream.old; heard = U.heard upstream.old })
        (record { held = Some (held_in context.new.nodes); lasting = lasting_in context.new.nodes context.new.wants; asked = U.asked upstream.new; faults = U.faults upstream.new; heard = U.heard upstream.new })
        (K.written sink.old) (K.written sink.new)) }
    ensures same_anchors { context.new.anchors ≡ context.old.anchors }
    ensures same_config { context.new.config ≡ context.old.config }
{
    let mut reply = read_reply(alloc, line)?;
    tell(alloc, context, &mut reply, upstream, NOW, sink)
        .ok()
        .context("a write failed")
}

fn main(rt: HostRuntime) -> anyhow::Result<()> {
    let anchors = TrustAnchors::from_u8(rt.alloc(), ANCHOR.as_bytes())?;
    let mut context = ValidationContext::new(rt.alloc(), anchors);
    let mut upstream = Resolver {
        rt: &rt,
        asked: 0,
        faults: 0,
    };
    let mut sink = Writing {
        inner: rt.stdout(),
        faults: 0,
    };
    for _ in 0..u64::MAX {
        let mut line = String::new(rt.alloc());
        if rt.read_line(&mut line)? == 0 {
            break;
        }
        judge(
            rt.alloc(),
            line.trim(),
            &mut context,
            &mut upstream,
            &mut sink,
        )?;
    }
    Ok(())
}
