//! How judging a group begins (RFC 4033 2, RFC 4035 4.3).

ghost use Rattle.std.specs.Prelude.{◌≡◌, ℕ, IfOk};
ghost use Rattle.dsec_nodes.specs.World.{Bounds, Replies};
ghost use Rattle.dsec_node.specs.Views.{world_of};
ghost use Rattle.dsec_found.specs.Begun.{BeginsAs};

use crate::judged::{Basis, JudgedGroup};
use crate::target::{Target, target_of};
use dsec_crypto::Verifier;
use dsec_group::Group;
use dsec_name::{Name, NoMemory};
use dsec_wire::Record;
use std::alloc::Global;

/// How judging a group begins.
#[derive(Drop)]
pub enum Begun<V: Verifier> {
    /// It is judged at once: it is of signatures alone, or no anchor stands at or above where it is looked for.
    Judged(JudgedGroup<V>),
    /// The group is judged by the node of the zone that is to have signed it, the last name, which is at or below its island, the
    /// first.
    Walk(Group, Name, Name),
}

/// How judging a group begins, from these anchors.
pub fn begin<V: Verifier>(
    alloc: Global,
    anchors: &[Record],
    group: Group,
) -> Result<Begun<V>, NoMemory>
    ensures { IfOk result (λ begun. (bounds : Bounds) (now : ℕ) (replies : Replies) → BeginsAs (world_of V.accepts anchors.now bounds now) replies group begun) }
{
    if group.rr_set().is_empty() {
        let judged = JudgedGroup::new(alloc, group, Basis::NoSet)?;
        return Ok(Begun::Judged(judged));
    }
    let Target { top, zone } = target_of(alloc, anchors, &group)?;
    match top {
        Some(top) => Ok(Begun::Walk(group, top, zone)),
        None => {
            let judged = JudgedGroup::new(alloc, group, Basis::NoAnchor(zone))?;
            Ok(Begun::Judged(judged))
        }
    }
}
