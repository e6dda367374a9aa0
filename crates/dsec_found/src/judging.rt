//! Groups judged by nodes (RFC 4035 4.3, 5.3).

ghost use Rattle.std.specs.Prelude.{◌≡◌, ◌≤◌, ◌+◌, List, IfOk};
ghost use Rattle.std.specs.Arc.{arc_value};
ghost use Rattle.dsec_nodes.specs.Judging.{by_node};
ghost use Rattle.dsec_node.specs.Views.{bounds_of, world_of};
ghost use Rattle.dsec_spec.specs.Records as records;

use crate::found::found_by_node;
use crate::judged::{Basis, JudgedGroup};
use dsec_crypto::Verifier;
use dsec_group::{Group, Memo, Steps};
use dsec_name::NoMemory;
use dsec_node::{Config, Node};
use std::alloc::Global;
use std::sync::Arc;
use std::sync::ledger::Ledger;

/// A group, judged by the node of the zone that is to have signed it, at a moment in seconds since 1970: by what the node says, and
/// where the node is a zone's by trying the zone's keys, at most `max_bad_signatures + 1` pairs of a signature and a key, each in a step.
/// It asks neither whether the node counts at that moment nor whether it stands at or above where the group is looked for: the caller has to
/// know both, or go by `dsec_by_node`, which asks them.
pub fn judged_by_node<V: Verifier, L: Ledger>(
    alloc: Global,
    config: &Config,
    now: u64,
    group: Group,
    node: Arc<Node<V>>,
    memo: &mut impl Memo<V>,
    steps: &mut Steps<L>,
) -> Result<JudgedGroup<V>, NoMemory>
    ensures judged { IfOk result (λ it. (anchors : List records.Record) → it ≡ by_node (world_of V.accepts anchors (bounds_of config.now) now) group (arc_value node)) }
    ensures later { steps.old ≤ steps.new }
    ensures bound { steps.new ≤ steps.old + (config.now.max_bad_signatures + 1) }
{
    let found = found_by_node::<V, L>(alloc, config, now, &group, &node, memo, steps)?;
    JudgedGroup::new(alloc, group, Basis::ByNode(node, found))
}
