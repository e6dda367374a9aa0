//! A name at which a CNAME set stands, so that no zone begins there (RFC 1034 3.6.2).

ghost use Rattle.std.specs.Prelude.{◌≡◌, ◌≤◌, ◌+◌, [], List, IfOk, Some, map, true};
ghost use Rattle.dsec_spec.specs.Groups as groups;
ghost use Rattle.dsec_spec.specs.Names.{place};
ghost use Rattle.dsec_spec.specs.Numbers.{CNAME};
ghost use Rattle.dsec_nodes.specs.ByDs.{by_alias as alias_below};
ghost use Rattle.dsec_nodes.specs.MissingDs.{missing_ds};
ghost use Rattle.dsec_nodes.specs.Signing.{is_set_at};
ghost use Rattle.dsec_node.specs.Views.{bounds_of, world_of};
ghost use Rattle.dsec_child.specs.Belows.{IsZoneAbove, or_node};

use crate::island::bogus;
use crate::missing::within;
use crate::signed_set::{SignedSet, under_keys};
use dsec_crypto::Verifier;
use dsec_group::{Group, Memo, Steps};
use dsec_name::{Name, NoMemory};
use dsec_node::{Config, Keys, Node};
use std::alloc::Global;
use std::sync::ledger::Ledger;

/// The node of a name by a CNAME set at it; none by a set of more records than one, or of none, or by a wildcard's expansion.
pub(crate) fn by_alias<V: Verifier, L: Ledger>(
    alloc: Global,
    config: &Config,
    now: u64,
    zone: &Node<V>,
    keys: &Keys,
    name: &Name,
    group: &Group,
    memo: &mut impl Memo<V>,
    steps: &mut Steps<L>,
) -> Result<Option<Node<V>>, NoMemory>
    requires above { IsZoneAbove (world_of V.accepts [] (bounds_of config.now) now) zone.now keys.now (place name.now) }
    requires at { is_set_at (place name.now) CNAME group.now ≡ true }
    ensures node { IfOk result (λ found. (authorities : List groups.Group) → or_node found (missing_ds (world_of V.accepts [] (bounds_of config.now) now) zone.now keys.now (place name.now) authorities)
        ≡ alias_below (world_of V.accepts [] (bounds_of config.now) now) zone.now keys.now (place name.now) authorities (Some group.now)) }
    ensures later { steps.old ≤ steps.new }
    ensures bound { steps.new ≤ steps.old + (config.now.max_bad_signatures + 1) }
{
    if group.rr_set().len() != 1 {
        return Ok(None);
    }
    match under_keys::<V, L>(
        alloc,
        config,
        now,
        zone.signer_name(),
        keys,
        group,
        memo,
        steps,
    )? {
        SignedSet::Signed(by) => {
            let node = within(alloc, config, now, zone, keys, name, group, by)?;
            Ok(Some(node))
        }
        SignedSet::Expanded => Ok(None),
        SignedSet::Refused(cause) => {
            let node = bogus(alloc, config, now, name, cause)?;
            Ok(Some(node))
        }
    }
}
