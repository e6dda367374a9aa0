//! Single groups, each judged by itself: from the anchors, and by a node that is kept.

use crate::scene::{Scene, message_of};
use crate::told::Told;
use dsec_anchors::TrustAnchors;
use dsec_cause::Cause;
use dsec_context::Error;
use dsec_crypto::StandIn;
use dsec_group::{Group, NoMemo, Seed, ValidationState, groups};
use dsec_name::{Name, NoMemory};
use dsec_node::{Caches, Config, Node, OwnedCaches};
use dsec_outside::Upstream;
use dsec_script::Item;
use dsec_single::{validate_with_node, validated};
use dsec_validated::ValidatedGroup;
use dsec_wire::Records;
use std::alloc::Global;
use std::sync::Arc;

/// What is told of a group that is judged by itself.
#[derive(Clone, Copy)]
pub struct GroupTold {
    /// From the anchors of the scene.
    pub from_anchors: Told,
    /// By the node that is then kept for the zone that was to have signed it, or for the nearest name above that; none where none is kept, or
    /// the group is of signatures alone.
    pub by_node: Option<Told>,
}

/// What is told of the first group of each message's answer section, in order, where there is one, over one map of nodes. A message whose questions
/// or answer section can't be read is an error, and so is want of memory; the sections after it aren't read.
pub fn first_groups(
    alloc: Global,
    scene: &mut Scene,
    caches: &mut OwnedCaches<StandIn>,
) -> Result<Vec<GroupTold>, Error> {
    let mut all = Vec::new(alloc);
    for index in 0..scene.messages.len() {
        if let Some(told) = first_group(alloc, scene, index, caches)? {
            all.push(told)?;
        }
    }
    Ok(all)
}

/// The same of the message with this index, if there is one.
fn first_group(
    alloc: Global,
    scene: &mut Scene,
    index: usize,
    caches: &mut OwnedCaches<StandIn>,
) -> Result<Option<GroupTold>, Error> {
    let Scene { messages, upstream } = scene;
    let Some(item) = messages.item(index) else {
        return Ok(None);
    };
    let all = groups_of(alloc, item)?;
    let Some(group) = all.first() else {
        return Ok(None);
    };
    let single = Single {
        index,
        group,
        moment: item.seconds,
    };
    let before = upstream.asked;
    let mut told = single.in_two_ways(alloc, &messages.anchors, caches, upstream)?;
    told.from_anchors.number = upstream.asked.saturating_sub(before);
    Ok(Some(told))
}

/// The groups of a message's answer section.
fn groups_of(alloc: Global, item: &Item) -> Result<Vec<Group>, Error> {
    let answer = answer_of(alloc, item)?;
    Ok(groups(alloc, answer, Seed::fixed())?.into_vec())
}

/// The records of a message's answer section.
fn answer_of(alloc: Global, item: &Item) -> Result<Records, Error> {
    let message = message_of(alloc, item)?;
    Ok(message.answer(alloc)?)
}

/// A group that is judged by itself.
#[derive(Clone, Copy)]
struct Single<'a> {
    index: usize,
    group: &'a Group,
    /// The moment at which it is judged, in seconds since 1970.
    moment: u64,
}

impl Single<'_> {
    /// Judges it from anchors, whose questions aren't counted yet, and then by the node that this has left.
    fn in_two_ways<U: Upstream>(
        &self,
        alloc: Global,
        anchors: &TrustAnchors,
        caches: &mut OwnedCaches<StandIn>,
        upstream: &mut U,
    ) -> Result<GroupTold, Error> {
        match validated(
            alloc,
            self.group,
            anchors,
            &Config::new(),
            caches,
            &mut NoMemo,
            upstream,
            self.moment,
        ) {
            Ok(made) => self.both(alloc, caches, made),
            Err(NoMemory) => Err(Error::NoMemory),
        }
    }

    /// What was said of it from anchors, and what the node that is then kept says.
    fn both(
        &self,
        alloc: Global,
        caches: &mut OwnedCaches<StandIn>,
        made: ValidatedGroup<StandIn>,
    ) -> Result<GroupTold, Error> {
        let from_anchors = self.told(made.state(), made.ede(), 0);
        let by_node = self.by_nearest(alloc, caches, made.signer_name());
        drop(made);
        Ok(GroupTold {
            from_anchors,
            by_node: by_node?,
        })
    }

    /// What the node says of it that is kept for a zone, or for the nearest name above, if one is.
    fn by_nearest(
        &self,
        alloc: Global,
        caches: &mut OwnedCaches<StandIn>,
        zone: &Name,
    ) -> Result<Option<Told>, Error> {
        match nearest(alloc, caches, zone)? {
            Some(node) => self.by_node(alloc, &node),
            None => Ok(None),
        }
    }

    /// What a node says of it, if it has records.
    fn by_node(&self, alloc: Global, node: &Arc<Node<StandIn>>) -> Result<Option<Told>, Error> {
        if self.group.rr_set().is_empty() {
            return Ok(None);
        }
        let Ok(found) = validate_with_node(
            alloc,
            self.group,
            node,
            &Config::new(),
            &mut NoMemo,
            self.moment,
        ) else {
            return Err(Error::NoMemory);
        };
        let told = self.told(found.told.state(), found.told.ede(), found.seconds);
        drop(found);
        Ok(Some(told))
    }

    /// What is told of it.
    fn told(&self, state: ValidationState, cause: Option<Cause>, number: u64) -> Told {
        Told {
            index: self.index,
            state,
            cause,
            number,
        }
    }
}

/// The node that is kept for a zone, or for the nearest name above it, if one is.
fn nearest(
    alloc: Global,
    caches: &mut OwnedCaches<StandIn>,
    zone: &Name,
) -> Result<Option<Arc<Node<StandIn>>>, Error> {
    for labels in (0..zone.label_count()).rev() {
        let name = zone.ancestor(alloc, labels)?;
        if let Some(node) = caches.get(&name)? {
            return Ok(Some(node));
        }
    }
    Ok(None)
}
