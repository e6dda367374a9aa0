//! Ways of judging a scene's messages by hand: one after the other, and by turns.

use crate::machine::Machine;
use crate::scene::{Messages, Scene};
use crate::told::Told;
use crate::turning::Turning;
use dsec_context::Error;
use dsec_crypto::StandIn;
use dsec_group::Steps;
use dsec_node::{Caches, OwnedCaches};
use dsec_outside::{TableUpstream, Upstream};
use std::alloc::Global;
use std::sync::ledger::Ledger;

/// How many turns are enough for each message.
const TURNS: u32 = 1000;

/// What is told of each message of a scene, in order, judged one after the other over the same caches. Of one that takes more than 1000 steps, or
/// that ends in an error, nothing is told. One that can't be read is an error, and so is want of memory for it or for what is told.
pub fn one_by_one<C: Caches<StandIn>, L: Ledger>(
    alloc: Global,
    scene: &mut Scene,
    caches: &mut C,
    steps: &mut Steps<L>,
) -> Result<Vec<Option<Told>>, Error> {
    let Scene { messages, upstream } = scene;
    let mut all = Vec::new(alloc);
    for index in 0..messages.len() {
        together::<Machine, C, TableUpstream, L>(
            alloc,
            messages,
            &[index],
            caches,
            upstream,
            steps,
            &mut all,
        )?;
    }
    Ok(all)
}

/// The same of each message and the one after it, a pair after the other: judged by turns, a step each, over a map of nodes of their own.
pub fn two_by_two<L: Ledger>(
    alloc: Global,
    scene: &mut Scene,
    steps: &mut Steps<L>,
) -> Result<Vec<Option<Told>>, Error> {
    let Scene { messages, upstream } = scene;
    let mut all = Vec::new(alloc);
    for index in 1..messages.len() {
        over_one_map::<Machine, TableUpstream, L>(
            alloc,
            messages,
            &[index - 1, index],
            upstream,
            steps,
            &mut all,
        )?;
    }
    Ok(all)
}

/// Adds what is told of the messages with these indices, judged by turns over one map of nodes.
fn over_one_map<M: Turning, U: Upstream, L: Ledger>(
    alloc: Global,
    messages: &Messages,
    indices: &[usize],
    upstream: &mut U,
    steps: &mut Steps<L>,
    all: &mut Vec<Option<Told>>,
) -> Result<(), Error> {
    let mut caches = OwnedCaches::new(alloc);
    together::<M, OwnedCaches<StandIn>, U, L>(
        alloc,
        messages,
        indices,
        &mut caches,
        upstream,
        steps,
        all,
    )
}

/// Adds what is told of the messages with these indices, where there are such, judged by turns over the same caches.
fn together<M: Turning, C: Caches<StandIn>, U: Upstream, L: Ledger>(
    alloc: Global,
    messages: &Messages,
    indices: &[usize],
    caches: &mut C,
    upstream: &mut U,
    steps: &mut Steps<L>,
    all: &mut Vec<Option<Told>>,
) -> Result<(), Error> {
    let mut machines: Vec<M> = Vec::new(alloc);
    start(alloc, messages, indices, &mut machines)?;
    for _ in 0..TURNS {
        turn(alloc, &mut machines, caches, upstream, steps);
    }
    tell(&machines, all)
}

/// Adds the messages with these indices, which are to begin.
fn start<M: Turning>(
    alloc: Global,
    messages: &Messages,
    indices: &[usize],
    machines: &mut Vec<M>,
) -> Result<(), Error> {
    for index in indices {
        if let Some(item) = messages.item(*index) {
            machines.push(M::start(alloc, messages, *index, item)?)?;
        }
    }
    Ok(())
}

/// A turn of each message.
fn turn<M: Turning, C: Caches<StandIn>, U: Upstream, L: Ledger>(
    alloc: Global,
    machines: &mut [M],
    caches: &mut C,
    upstream: &mut U,
    steps: &mut Steps<L>,
) {
    for machine in machines.iter_mut() {
        machine.turn(alloc, caches, upstream, steps);
    }
}

/// Adds what is told of each message, where nothing more is waited for.
fn tell<M: Turning>(machines: &[M], all: &mut Vec<Option<Told>>) -> Result<(), Error> {
    for machine in machines {
        all.push(machine.told())?;
    }
    Ok(())
}
