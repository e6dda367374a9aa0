//! A DS set at a name, under the keys of the zone above (RFC 4035 5.2).

ghost use Rattle.std.specs.Prelude.{◌≡◌, ◌≤◌, ◌+◌, [], List, IfOk, Some, map, false, true};
ghost use Rattle.std.specs.List.{list_any};
ghost use Rattle.dsec_spec.specs.Groups as groups;
ghost use Rattle.dsec_spec.specs.Names.{place};
ghost use Rattle.dsec_spec.specs.Numbers.{DS};
ghost use Rattle.dsec_spec.specs.Records as records;
ghost use Rattle.dsec_spec.specs.Trying.{good};
ghost use Rattle.dsec_nodes.specs.ByDs.{by_ds_set as ds_below, by_signed_ds as signed_below, pending_by, without_ds};
ghost use Rattle.dsec_nodes.specs.Signing.{is_expanded, is_set_at, keys_of, under_keys as tried_by};
ghost use Rattle.dsec_node.specs.Views.{bounds_of, world_of};
ghost use Rattle.dsec_child.specs.Belows.{IsZoneAbove, below_view, is_usable_ds, or_below};
ghost use Rattle.dsec_child.specs.SignedSets.{IsPairAt};

use crate::island::bogus;
use crate::missing::insecure;
use crate::signed_set::{SignedBy, SignedSet, under_keys};
use crate::way::is_supported;
use dsec_cause::Cause;
use dsec_crypto::Verifier;
use dsec_group::{Group, Memo, Steps};
use dsec_keys::KeyList;
use dsec_link::LinkKind;
use dsec_name::{Name, NoMemory};
use dsec_node::{Config, Ground, Keys, Node, Pending, kept_for, link_by_keys};
use dsec_wire::Record;
use std::alloc::Global;
use std::sync::ledger::Ledger;

/// What the reply to the question for a name's DS set comes to.
#[derive(Drop)]
pub enum Below<V: Verifier> {
    /// What is known of the name.
    Made(Node<V>),
    /// The zone has signed a DS set for it, and its DNSKEY set is to be asked for.
    Asks(Pending),
}

/// What a DS set at a name comes to; nothing where it is a wildcard's expansion, which counts as absent (RFC 4035 5.3.4).
pub(crate) fn by_ds_set<V: Verifier, L: Ledger>(
    alloc: Global,
    config: &Config,
    now: u64,
    zone: &Node<V>,
    keys: &Keys,
    name: &Name,
    group: &Group,
    memo: &mut impl Memo<V>,
    steps: &mut Steps<L>,
) -> Result<Option<Below<V>>, NoMemory>
    requires above { IsZoneAbove (world_of V.accepts [] (bounds_of config.now) now) zone.now keys.now (place name.now) }
    requires at { is_set_at (place name.now) DS group.now ≡ true }
    ensures below { IfOk result (λ found. (answers authorities : List groups.Group) →
        or_below found (without_ds (world_of V.accepts [] (bounds_of config.now) now) zone.now keys.now (place name.now) answers authorities)
        ≡ ds_below (world_of V.accepts [] (bounds_of config.now) now) zone.now keys.now (place name.now) answers authorities (Some group.now)) }
    ensures later { steps.old ≤ steps.new }
    ensures bound { steps.new ≤ steps.old + (config.now.max_bad_signatures + 1) }
{
    match under_keys::<V, L>(
        alloc,
        config,
        now,
        zone.signer_name(),
        keys,
        group,
        memo,
        steps,
    )? {
        SignedSet::Signed(by) => {
            let it = by_signed_ds(alloc, config, now, zone, keys, name, group, by)?;
            Ok(Some(it))
        }
        SignedSet::Expanded => Ok(None),
        SignedSet::Refused(cause) => {
            let node = bogus(alloc, config, now, name, cause)?;
            Ok(Some(Below::Made(node)))
        }
    }
}

/// What a DS set comes to that the zone has signed, by the pair at these indexes.
fn by_signed_ds<V: Verifier>(
    alloc: Global,
    config: &Config,
    now: u64,
    zone: &Node<V>,
    keys: &Keys,
    name: &Name,
    group: &Group,
    by: SignedBy,
) -> Result<Below<V>, NoMemory>
    requires above { IsZoneAbove (world_of V.accepts [] (bounds_of config.now) now) zone.now keys.now (place name.now) }
    requires at { is_set_at (place name.now) DS group.now ≡ true }
    requires signed { (p : records.Record × records.Key) × (tried_by (world_of V.accepts [] (bounds_of config.now) now) zone.now.signer keys.now group.now ≡ good p)
        × IsPairAt group.now (keys_of keys.now) by p × (is_expanded group.now p.0 ≡ false) }
    ensures { IfOk result (λ it. (p : records.Record × records.Key) → IsPairAt group.now (keys_of keys.now) by p
        → below_view it ≡ signed_below (world_of V.accepts [] (bounds_of config.now) now) zone.now keys.now (place name.now) group.now p) }
{
    if has_usable(group.rr_set()) {
        let it = pending(alloc, config, now, zone, keys, name, group, by)?;
        return Ok(Below::Asks(it));
    }
    let cause = Some(Cause::NoSupportedDs);
    let basis = Ground::DsNotSupported;
    let node = insecure(
        alloc, config, now, zone, keys, name, cause, basis, group, by,
    )?;
    Ok(Below::Made(node))
}

/// The DS set by which the next zone's keys are to be admitted, by the pair at these indexes.
fn pending<V: Verifier>(
    alloc: Global,
    config: &Config,
    now: u64,
    zone: &Node<V>,
    keys: &Keys,
    name: &Name,
    group: &Group,
    by: SignedBy,
) -> Result<Pending, NoMemory>
    requires above { IsZoneAbove (world_of V.accepts [] (bounds_of config.now) now) zone.now keys.now (place name.now) }
    requires pair { (p : records.Record × records.Key) × IsPairAt group.now (keys_of keys.now) by p }
    ensures { IfOk result (λ it. (p : records.Record × records.Key) → IsPairAt group.now (keys_of keys.now) by p
        → it ≡ pending_by (world_of V.accepts [] (bounds_of config.now) now) zone.now keys.now (place name.now) group.now p) }
{
    let bounds = config.bounds();
    let one = keys.key_at(by.key);
    let link = link_by_keys(alloc, LinkKind::Ds, group, by.signature, keys, &one.key)?;
    let valid_for = kept_for(zone, group, by.signature, &bounds, now);
    let name = copy_of(name)?;
    Ok(Pending::new(name, link, valid_for))
}

/// A copy of a name.
fn copy_of(name: &Name) -> Result<Name, NoMemory>
    ensures { IfOk result (λ copy. copy ≡ name.now) }
{
    Ok(name.clone()?)
}

/// Whether one of these records is a DS record of a known algorithm and digest.
fn has_usable(records: &[Record]) -> bool
    ensures { result ≡ list_any is_usable_ds records.now }
{
    records.iter().any(|one| is_usable(one))
}

/// Whether a record is a DS record of a known algorithm and digest.
fn is_usable(one: &Record) -> bool
    ensures { result ≡ is_usable_ds one.now }
{
    match one.rdata().ds() {
        Some(ds) => is_supported(&ds),
        None => false,
    }
}
