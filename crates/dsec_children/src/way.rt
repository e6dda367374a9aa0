//! The way from an island of security down to a name, by the replies of a script (RFC 4033 2, RFC 4035 5).

ghost use Rattle.std.specs.Prelude.{◌≡◌, ◌<◌, IfOk};
ghost use Rattle.dsec_spec.specs.Names.{IsAtOrBelow, place};
ghost use Rattle.dsec_crypto.specs.StandIn.{stand_in};
ghost use Rattle.dsec_walk.specs.UnderWay.{IsUnderWay};
ghost use Rattle.dsec_walk.specs.Views.{world_in};

use crate::text::push_node;
use dsec_crypto::StandIn;
use dsec_group::{NoMemo, Steps};
use dsec_name::{Name, NoMemory, Octets};
use dsec_node::{Node, Standing};
use dsec_number::Rtype;
use dsec_outside::Replies;
use dsec_walk::{Input, Setting, Step, Walk};
use std::alloc::Global;
use std::sync::ledger::{Blank, Ledger};

/// How many inputs are enough: four at most for each of the 128 names that a way can have, and one to begin.
const INPUTS: usize = 513;

/// Adds the nodes on the way from an island down to a name, by steps on the ledger that the blank opens.
pub(crate) fn push_way<L: Ledger>(
    alloc: Global,
    out: &mut Vec<u8>,
    replies: &Replies,
    setting: &Setting<'_>,
    top: Name,
    name: Name,
    blank: Blank,
) -> Result<(), NoMemory>
    requires below { IsAtOrBelow (place name) (place top) }
    requires name { blank.name ≡ L.name }
    requires parts { blank.parts ≡ L.parts }
    requires some { 0 < L.parts }
{
    let mut steps = Steps::<L>::begin(blank);
    let mut walk = Walk::start(alloc, top, name);
    go_down(alloc, out, replies, setting, &mut walk, &mut steps)
}

/// Adds the nodes that are still on the way.
fn go_down<L: Ledger>(
    alloc: Global,
    out: &mut Vec<u8>,
    replies: &Replies,
    setting: &Setting<'_>,
    walk: &mut Walk<StandIn>,
    steps: &mut Steps<L>,
) -> Result<(), NoMemory>
    requires under_way { IsUnderWay (world_in stand_in setting.now) walk.old }
{
    let mut input = Input::Begin;
    for _ in 0..INPUTS {
        match turn::<L>(alloc, out, replies, setting, walk, input, steps)? {
            Some(next) => input = next,
            None => break,
        }
    }
    Ok(())
}

/// Takes the walk a step on, and gives what answers that step; nothing where the way has ended.
fn turn<L: Ledger>(
    alloc: Global,
    out: &mut Vec<u8>,
    replies: &Replies,
    setting: &Setting<'_>,
    walk: &mut Walk<StandIn>,
    input: Input<StandIn>,
    steps: &mut Steps<L>,
) -> Result<Option<Input<StandIn>>, NoMemory>
    requires under_way { IsUnderWay (world_in stand_in setting.now) walk.old }
    ensures under_way { IfOk result (λ _. IsUnderWay (world_in stand_in setting.now) walk.new) }
{
    if !walk.awaits(&input) {
        return Ok(None);
    }
    match walk.advance::<L>(alloc, setting, input, &mut NoMemo, steps) {
        Ok(step) => answer_to(alloc, out, replies, step),
        Err(error) => Err(error),
    }
}

/// What answers a step: no node is kept, and the replies are the script's. Nothing answers the end. A node that is made is added: one that is to
/// be kept, or a bogus one, with which the way ends.
fn answer_to(
    alloc: Global,
    out: &mut Vec<u8>,
    replies: &Replies,
    step: Step<StandIn>,
) -> Result<Option<Input<StandIn>>, NoMemory> {
    match step {
        Step::NodeGet(_) => Ok(Some(Input::Node(None))),
        Step::NodePut(_, node) => {
            push_node(out, &node)?;
            Ok(Some(Input::Stored))
        },
        Step::Ask(name, rtype) => {
            let reply = reply_to(alloc, replies, &name, rtype)?;
            Ok(Some(Input::Reply(reply)))
        },
        Step::Done(node) => {
            push_end(out, &node)?;
            Ok(None)
        },
    }
}

/// Adds the node with which a way ends, if it is bogus: any other was made before.
fn push_end(out: &mut Vec<u8>, node: &Node<StandIn>) -> Result<(), NoMemory> {
    match node.standing() {
        Standing::Bogus(_) => push_node(out, node),
        Standing::Apex(_) | Standing::Within(_) | Standing::Insecure(_, _) => Ok(()),
    }
}

/// A copy of the reply to a question, or none where it fails.
fn reply_to(
    alloc: Global,
    replies: &Replies,
    name: &Name,
    rtype: Rtype,
) -> Result<Option<Octets>, NoMemory> {
    match replies.reply(name, rtype) {
        Some(octets) => Ok(Some(Octets::new(octets.to_vec(alloc)?))),
        None => Ok(None),
    }
}
