//! What is found of a group by the node of its zone (RFC 4033 5, RFC 4035 5.3).

ghost use Rattle.std.specs.Prelude.{◌≡◌, ◌≤◌, ◌+◌, [], IfOk};
ghost use Rattle.dsec_nodes.specs.Judging.{found_at};
ghost use Rattle.dsec_nodes.specs.Signing.{keys_of};
ghost use Rattle.dsec_nodes.specs.World.{on_circle};
ghost use Rattle.dsec_node.specs.Views.{bounds_of, world_of};
ghost use Rattle.dsec_spec.specs.Names.{place};
ghost use Rattle.dsec_spec.specs.Trying.{checked};
ghost use Rattle.dsec_found.specs.Founds.{ComesTo, StandsBy, finding_by};

use dsec_cause::Cause;
use dsec_crypto::Verifier;
use dsec_group::{Group, Memo, Steps, check_with_tagged_keys};
use dsec_name::{Name, NoMemory};
use dsec_node::{Config, Keys, Node, Standing};
use dsec_number::Timestamp;
use std::alloc::Global;
use std::sync::ledger::Ledger;

/// What is found of a group by a node, beside the node.
#[derive(Clone, Copy)]
pub(crate) enum Found {
    /// The group's signature at the first index is good, by the zone's key at the second.
    Shown(usize, usize),
    /// No chain leads to the node's name.
    Insecure,
    /// The node is to be relied on and the group isn't, and why.
    Bogus(Cause),
    /// The node isn't to be relied on, and why.
    AtBogus(Cause),
}

/// What is found of a group by a node, at a moment in seconds since 1970.
pub(crate) fn found_by_node<V: Verifier, L: Ledger>(
    alloc: Global,
    config: &Config,
    now: u64,
    group: &Group,
    node: &Node<V>,
    memo: &mut impl Memo<V>,
    steps: &mut Steps<L>,
) -> Result<Found, NoMemory>
    ensures found { IfOk result (λ found. finding_by group.now node.now found ≡ found_at (world_of V.accepts [] (bounds_of config.now) now) group.now node.now node.now.standing) }
    ensures stands { IfOk result (λ found. StandsBy group.now node.now found) }
    ensures later { steps.old ≤ steps.new }
    ensures bound { steps.new ≤ steps.old + (config.now.max_bad_signatures + 1) }
{
    match node.standing() {
        Standing::Apex(keys) => by_keys::<V, L>(
            alloc,
            config,
            now,
            group,
            node.signer_name(),
            keys,
            memo,
            steps,
        ),
        Standing::Within(_) => Ok(Found::Bogus(Cause::NoSignature)),
        Standing::Insecure(_, _) => Ok(Found::Insecure),
        Standing::Bogus(cause) => Ok(Found::AtBogus(*cause)),
    }
}

/// What is found of a group by trying the keys of a zone.
fn by_keys<V: Verifier, L: Ledger>(
    alloc: Global,
    config: &Config,
    now: u64,
    group: &Group,
    zone: &Name,
    keys: &Keys,
    memo: &mut impl Memo<V>,
    steps: &mut Steps<L>,
) -> Result<Found, NoMemory>
    ensures comes { IfOk result (λ found. ComesTo group.now (keys_of keys.now) found
        (checked V.accepts group.now (place zone.now) (keys_of keys.now) (config.now.max_bad_signatures + 1) (on_circle now))) }
    ensures later { steps.old ≤ steps.new }
    ensures bound { steps.new ≤ steps.old + (config.now.max_bad_signatures + 1) }
{
    let t = Timestamp::from_seconds(now);
    let limits = config.limits();
    let check = check_with_tagged_keys::<V, L, Keys>(
        alloc, group, zone, keys, &limits, t, memo, steps,
    )?;
    match (check.cause, check.signature, check.key) {
        (None, Some(signature), Some(key)) => Ok(Found::Shown(signature, key)),
        (Some(cause), _, _) => Ok(Found::Bogus(cause)),
        _ => Ok(Found::Bogus(Cause::NoSignature)),
    }
}
