//! Sections of a reply as judged groups: sets in lines of zone text, signed by the key of `example.`. Signatures are SHA-256 sums, made
//! with Python's hashlib.

ghost use Rattle.std.specs.Prelude.{◌≡◌, ◌<◌};

use dsec_child::anchored;
use dsec_crypto::StandIn;
use dsec_found::{JudgedGroup, judged_by_node};
use dsec_group::{NoMemo, Seed, Steps, groups};
use dsec_lines::{KEY, name, record};
use dsec_node::{Config, Node};
use dsec_wire::Records;
use std::alloc::Global;
use std::marker::Brand;
use std::sync::Arc;
use std::sync::ledger::{Blank, Ledger};

/// A record and its signature, as lines.
pub(crate) type Signed = [&'static str; 2];

/// The moment of the tests.
const NOW: u64 = 500;

/// The reply to the question for the zone's keys: the key, and a signature by it from the moment 0 to 1000.
const KEY_REPLY: &[u8] =
    b"\x00\x00\x84\x00\x00\x01\x00\x02\x00\x00\x00\x00\x07\x65\x78\x61\x6d\x70\x6c\x65\x00\x00\x30\x00\x01\x07\x65\x78\x61\x6d\x70\x6c\x65\x00\x00\x30\x00\x01\x00\x00\x0e\x10\x00\x06\x01\x01\x03\x0d\x01\x02\x07\x65\x78\x61\x6d\x70\x6c\x65\x00\x00\x2e\x00\x01\x00\x00\x0e\x10\x00\x3b\x00\x30\x0d\x01\x00\x00\x0e\x10\x00\x00\x03\xe8\x00\x00\x00\x00\x05\x10\x07\x65\x78\x61\x6d\x70\x6c\x65\x00\xd1\xe2\xfd\xe8\x56\xa7\x39\x99\x6d\x32\x77\x78\x7d\x3a\x44\xa1\x87\x82\xef\x12\x3b\x6d\x97\xb8\x9f\xe4\xbb\x25\x97\x1d\xd1\x72";

/// The records of sets.
fn records(alloc: Global, sets: &[Signed]) -> Option<Records> {
    let mut made = Vec::new(alloc);
    for set in sets {
        for line in set.as_slice() {
            let one = record(alloc, line)?;
            if made.push(one).is_err() {
                return None;
            }
        }
    }
    Some(Records::new(made))
}

/// The zone's node.
fn zone_node<L: Ledger>(
    alloc: Global,
    config: &Config,
    steps: &mut Steps<L>,
) -> Option<Arc<Node<StandIn>>> {
    let anchor = record(alloc, KEY)?;
    let top = name(alloc, "example.")?;
    let Ok(reply) = Vec::from_slice(alloc, KEY_REPLY) else {
        return None;
    };
    let anchors = [anchor];
    let made = anchored::<StandIn, L>(
        alloc,
        anchors.as_slice(),
        config,
        NOW,
        &top,
        Some(reply),
        &mut NoMemo,
        steps,
    );
    match made {
        Ok(node) => match Arc::new(alloc, node) {
            Ok(shared) => Some(shared),
            Err(_) => None,
        },
        Err(_) => None,
    }
}

/// The groups of sets, each judged by the zone's node.
pub(crate) fn section(alloc: Global, sets: &[Signed]) -> Option<Vec<JudgedGroup<StandIn>>> {
    judged::<Brand>(alloc, sets, Blank::new(1))
}

/// The same, with steps that nobody counts.
fn judged<L: Ledger>(
    alloc: Global,
    sets: &[Signed],
    blank: Blank,
) -> Option<Vec<JudgedGroup<StandIn>>>
    requires name { blank.name ≡ L.name }
    requires parts { blank.parts ≡ L.parts }
    requires some { 0 < L.parts }
{
    let config = Config::new();
    let mut steps: Steps<L> = Steps::begin(blank);
    let node = zone_node::<L>(alloc, &config, &mut steps)?;
    let section = records(alloc, sets)?;
    let Ok(found) = groups(alloc, section, Seed::fixed()) else {
        return None;
    };
    let mut all = Vec::new(alloc);
    for group in found.into_vec() {
        let Ok(node) = Arc::try_clone(&node) else {
            return None;
        };
        let one = judged_by_node::<StandIn, L>(
            alloc,
            &config,
            NOW,
            group,
            node,
            &mut NoMemo,
            &mut steps,
        );
        let Ok(one) = one else {
            return None;
        };
        if all.push(one).is_err() {
            return None;
        }
    }
    Some(all)
}
