//! Messages judged one after the other, and the texts of their outcomes sent.

ghost use Rattle.std.specs.Prelude.{◌≡◌, [], ℕ, List, Some, IfOk, OnOk, IsErrOf};
ghost use Rattle.std.specs.Io.KnownBytes.{Appends};
ghost use Rattle.dsec_spec.specs.Outside.{SentFront};
ghost use Rattle.dsec_nodes.specs.Nodes.{Node};
ghost use Rattle.dsec_nodes.specs.World.{Replies};
ghost use Rattle.dsec_node.specs.Caches.{held_in};
ghost use Rattle.dsec_node.specs.Configs.{default_settings};
ghost use Rattle.dsec_outside.specs.Faults.{CountsWrites};
ghost use Rattle.dsec_context.specs.Outside.{replies_of, HoldsTable};
ghost use Rattle.dsec_answer.specs.Asked.{HoldsAmong};
ghost use Rattle.dsec_answer.specs.Outcomes.{IsText, kept_for, world_of_script};
ghost use Rattle.dsec_answer.specs.Sending.{ComesOver, NotAll};

use crate::outcome::{Outcome, Unjudged};
use crate::sending::send_outcome;
use dsec_context::ValidationContext;
use dsec_crypto::Verifier;
use dsec_message::Message;
use dsec_name::NoMemory;
use dsec_outside::{Halt, Sink, TableUpstream, send};
use dsec_script::Item;
use std::alloc::Global;

/// What comes of a message at its moment, over nodes of the table at this moment.
#[tactic(auto, using(crate::proofs::OutcomeLaws::says_told))]
fn judge_one<V: Verifier>(
    alloc: Global,
    context: &mut ValidationContext<V>,
    upstream: &mut TableUpstream,
    item: Item,
) -> Result<Outcome<V>, NoMemory>
    requires config { context.old.config ≡ default_settings }
    requires holds { HoldsTable (world_of_script V.accepts context.old.anchors item.seconds) (replies_of upstream.old.replies) (Some (held_in context.old.nodes)) }
    ensures outcome { IfOk result (λ outcome. (kept : List Node) → HoldsAmong kept (held_in context.old.nodes)
        → ComesOver V.accepts context.old.anchors upstream.old.replies kept item outcome (held_in context.new.nodes)) }
    ensures holds { HoldsTable (world_of_script V.accepts context.old.anchors item.seconds) (replies_of upstream.old.replies) (Some (held_in context.new.nodes)) }
    ensures same_anchors { context.new.anchors ≡ context.old.anchors }
    ensures same_config { context.new.config ≡ context.old.config }
    ensures same_table { upstream.new.replies ≡ upstream.old.replies }
{
    let Ok(mut message) = Message::from_octets(item.octets.into_vec()) else {
        return Ok(Outcome::refused(Unjudged::ShortMessage));
    };
    Outcome::told(context.validate_msg(alloc, &mut message, upstream, item.seconds))
}

/// Forgets nodes of another moment, and before the first message after a `now` all nodes.
fn forget_others<V: Verifier>(context: &mut ValidationContext<V>, moment: u64, item: &Item)
    ensures holds { (replies : Replies) → HoldsTable (world_of_script V.accepts context.old.anchors moment) replies (Some (held_in context.old.nodes))
        → HoldsTable (world_of_script V.accepts context.old.anchors item.now.seconds) replies (Some (held_in context.new.nodes)) }
    ensures kept { (kept : List Node) → HoldsAmong kept (held_in context.old.nodes) → HoldsAmong (kept_for moment item.now kept) (held_in context.new.nodes) }
    ensures same_anchors { context.new.anchors ≡ context.old.anchors }
    ensures same_config { context.new.config ≡ context.old.config }
{
    if item.opens || item.seconds != moment {
        context.forget();
    }
}

/// What comes of a message at its moment. Nodes of another moment are forgotten before.
fn judge_next<V: Verifier>(
    alloc: Global,
    context: &mut ValidationContext<V>,
    upstream: &mut TableUpstream,
    moment: u64,
    item: Item,
) -> Result<Outcome<V>, NoMemory>
    requires config { context.old.config ≡ default_settings }
    requires holds { HoldsTable (world_of_script V.accepts context.old.anchors moment) (replies_of upstream.old.replies) (Some (held_in context.old.nodes)) }
    ensures outcome { IfOk result (λ outcome. (kept : List Node) → HoldsAmong kept (held_in context.old.nodes)
        → ComesOver V.accepts context.old.anchors upstream.old.replies (kept_for moment item kept) item outcome (held_in context.new.nodes)) }
    ensures holds { HoldsTable (world_of_script V.accepts context.old.anchors item.seconds) (replies_of upstream.old.replies) (Some (held_in context.new.nodes)) }
    ensures same_anchors { context.new.anchors ≡ context.old.anchors }
    ensures same_config { context.new.config ≡ context.old.config }
    ensures same_table { upstream.new.replies ≡ upstream.old.replies }
{
    forget_others(context, moment, &item);
    judge_one(alloc, context, upstream, item)
}

/// Judges messages and sends the texts of their outcomes, in blocks. The context keeps no node yet.
pub fn judge_all<V: Verifier, K: Sink>(
    alloc: Global,
    context: &mut ValidationContext<V>,
    upstream: &mut TableUpstream,
    items: Vec<Item>,
    sink: &mut K,
) -> Result<(), Halt>
    requires config { context.old.config ≡ default_settings }
    requires fresh { context.old.nodes ≡ [] }
    ensures counts { CountsWrites (K.faults sink.old) (K.faults sink.new) result }
    ensures sent { OnOk result ((text : List ℕ) × IsText V.accepts context.old.anchors upstream.old.replies items.items text × Appends (K.written sink.old) (K.written sink.new) text) }
    ensures front { (text : List ℕ) × IsText V.accepts context.old.anchors upstream.old.replies items.items text × SentFront (K.written sink.old) (K.written sink.new) text }
    ensures memory { IsErrOf result Halt.Memory → (text : List ℕ) × IsText V.accepts context.old.anchors upstream.old.replies items.items text × NotAll (K.written sink.old) (K.written sink.new) text }
{
    let mut gathered = Vec::new(alloc);
    let mut index = 0u64;
    let mut moment = 0u64;
    for item in items {
        let seconds = item.seconds;
        let outcome = judge_next(alloc, context, upstream, moment, item)?;
        moment = seconds;
        send_outcome(alloc, sink, &mut gathered, index, outcome)?;
        index += 1;
    }
    send(sink, &gathered)?;
    Ok(())
}
