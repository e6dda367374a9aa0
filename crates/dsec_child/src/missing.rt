//! A name without a DS set that counts, by the NSEC and NSEC3 records of a reply (RFC 4035 5.2, RFC 5155 8.9).

ghost use Rattle.std.specs.Prelude.{◌≡◌, ◌≤◌, ◌+◌, ◌*◌, [], IfOk, length, map, unwrap_or};
ghost use Rattle.dsec_spec.specs.Names.{place};
ghost use Rattle.dsec_spec.specs.Records as records;
ghost use Rattle.dsec_nodes.specs.Causes.{NoProofForMissingDs};
ghost use Rattle.dsec_nodes.specs.MissingDs.{insecure_by, looked_for, missing_ds, within_by};
ghost use Rattle.dsec_nodes.specs.Nodes.{Kept};
ghost use Rattle.dsec_nodes.specs.Signing.{keys_of};
ghost use Rattle.dsec_node.specs.Views.{bounds_of, ground_view, world_of};
ghost use Rattle.dsec_denial.specs.Findings.{AreThere, Finds};
ghost use Rattle.dsec_child.specs.Belows.{IsZoneAbove};
ghost use Rattle.dsec_child.specs.SignedSets.{IsPairAt};

use crate::island::bogus;
use crate::signed_set::SignedBy;
use dsec_cause::Cause;
use dsec_crypto::Verifier;
use dsec_denial::{DsFinding, denials_for_missing_ds};
use dsec_group::{Group, Memo, Steps};
use dsec_keys::KeyList;
use dsec_name::{Name, NoMemory};
use dsec_node::{Config, Ground, Keys, Node, insecure_node, within_node};
use dsec_number::Timestamp;
use std::alloc::Global;
use std::sync::ledger::Ledger;

/// The node of a name, by the groups of a reply's authority section: by NSEC records, and where none decides, by NSEC3 records.
pub(crate) fn missing<V: Verifier, L: Ledger>(
    alloc: Global,
    config: &Config,
    now: u64,
    zone: &Node<V>,
    keys: &Keys,
    name: &Name,
    groups: &[Group],
    memo: &mut impl Memo<V>,
    steps: &mut Steps<L>,
) -> Result<Node<V>, NoMemory>
    requires { IsZoneAbove (world_of V.accepts [] (bounds_of config.now) now) zone.now keys.now (place name.now) }
    ensures node { IfOk result (λ n. n ≡ missing_ds (world_of V.accepts [] (bounds_of config.now) now) zone.now keys.now (place name.now) groups.now) }
    ensures later { steps.old ≤ steps.new }
    ensures bound { steps.new ≤ steps.old + length groups.now * (config.now.max_bad_signatures + 1) }
{
    let t = Timestamp::from_seconds(now);
    let limits = config.limits();
    let apex = zone.signer_name();
    let found = denials_for_missing_ds::<V, L>(
        alloc, groups, name, apex, keys, &limits, t, memo, steps,
    )?;
    by_finding(alloc, config, now, zone, keys, name, groups, found)
}

/// The same, by what the records show.
fn by_finding<V: Verifier>(
    alloc: Global,
    config: &Config,
    now: u64,
    zone: &Node<V>,
    keys: &Keys,
    name: &Name,
    groups: &[Group],
    found: DsFinding,
) -> Result<Node<V>, NoMemory>
    requires above { IsZoneAbove (world_of V.accepts [] (bounds_of config.now) now) zone.now keys.now (place name.now) }
    requires there { AreThere groups.now (keys_of keys.now) found }
    requires finds { Finds (world_of V.accepts [] (bounds_of config.now) now) zone.now keys.now (place name.now) groups.now (keys_of keys.now) found
        (looked_for (world_of V.accepts [] (bounds_of config.now) now) zone.now keys.now (place name.now) groups.now) }
    ensures { IfOk result (λ n. n ≡ missing_ds (world_of V.accepts [] (bounds_of config.now) now) zone.now keys.now (place name.now) groups.now) }
{
    match found {
        DsFinding::Within(at) => {
            let by = SignedBy {
                signature: at.signature,
                key: at.key,
            };
            let group = &groups[at.group];
            within(alloc, config, now, zone, keys, name, group, by)
        }
        DsFinding::Insecure(at, basis, cause) => {
            let by = SignedBy {
                signature: at.signature,
                key: at.key,
            };
            let group = &groups[at.group];
            insecure(
                alloc, config, now, zone, keys, name, cause, basis, group, by,
            )
        }
        DsFinding::Bogus(cause) => bogus(alloc, config, now, name, cause),
        DsFinding::Passed(cause) => {
            let told = cause_left(cause);
            bogus(alloc, config, now, name, told)
        }
    }
}

/// Why nothing is shown of a name, by the cause that is left.
fn cause_left(cause: Option<Cause>) -> Cause
    ensures { result ≡ unwrap_or cause NoProofForMissingDs }
{
    match cause {
        Some(cause) => cause,
        None => Cause::NoProofForMissingDs,
    }
}

/// The node of a name within the zone: by a group of the zone that shows it, and the pair at these indexes.
pub(crate) fn within<V: Verifier>(
    alloc: Global,
    config: &Config,
    now: u64,
    zone: &Node<V>,
    keys: &Keys,
    name: &Name,
    group: &Group,
    by: SignedBy,
) -> Result<Node<V>, NoMemory>
    requires above { IsZoneAbove (world_of V.accepts [] (bounds_of config.now) now) zone.now keys.now (place name.now) }
    requires kept { (p : records.Record × records.Key) × IsPairAt group.now (keys_of keys.now) by p
        × Kept V.accepts (within_by (world_of V.accepts [] (bounds_of config.now) now) zone.now keys.now (place name.now) group.now p) }
    ensures { IfOk result (λ n. (p : records.Record × records.Key) → IsPairAt group.now (keys_of keys.now) by p
        → n ≡ within_by (world_of V.accepts [] (bounds_of config.now) now) zone.now keys.now (place name.now) group.now p) }
{
    let bounds = config.bounds();
    let one = keys.key_at(by.key);
    within_node(
        alloc,
        &bounds,
        now,
        zone,
        keys,
        name,
        group,
        by.signature,
        &one.key,
    )
}

/// The node of a name to which no chain leads: by a group of the zone that shows it, and the pair at these indexes.
pub(crate) fn insecure<V: Verifier>(
    alloc: Global,
    config: &Config,
    now: u64,
    zone: &Node<V>,
    keys: &Keys,
    name: &Name,
    cause: Option<Cause>,
    basis: Ground,
    group: &Group,
    by: SignedBy,
) -> Result<Node<V>, NoMemory>
    requires above { IsZoneAbove (world_of V.accepts [] (bounds_of config.now) now) zone.now keys.now (place name.now) }
    requires kept { (p : records.Record × records.Key) × IsPairAt group.now (keys_of keys.now) by p
        × Kept V.accepts (insecure_by (world_of V.accepts [] (bounds_of config.now) now) zone.now keys.now (place name.now) cause (ground_view basis) group.now p) }
    ensures { IfOk result (λ n. (p : records.Record × records.Key) → IsPairAt group.now (keys_of keys.now) by p
        → n ≡ insecure_by (world_of V.accepts [] (bounds_of config.now) now) zone.now keys.now (place name.now) cause (ground_view basis) group.now p) }
{
    let bounds = config.bounds();
    let one = keys.key_at(by.key);
    insecure_node(
        alloc,
        &bounds,
        now,
        zone,
        keys,
        name,
        cause,
        basis,
        group,
        by.signature,
        &one.key,
    )
}
