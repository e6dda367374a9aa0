//! A set under the keys of a zone (RFC 4035 5.3).

ghost use Rattle.std.specs.Prelude.{◌≡◌, ◌≤◌, ◌<◌, ◌+◌, IfOk, List, Some, length, map, slice_get};
ghost use Rattle.dsec_spec.specs.Names.{place};
ghost use Rattle.dsec_spec.specs.Records as records;
ghost use Rattle.dsec_spec.specs.Trying.{checked, good};
ghost use Rattle.dsec_nodes.specs.Signing.{keys_of};
ghost use Rattle.dsec_nodes.specs.World.{on_circle};
ghost use Rattle.dsec_child.specs.SignedSets.{ComesTo, IsPairAt};

use dsec_cause::Cause;
use dsec_crypto::Verifier;
use dsec_denial::is_expanded;
use dsec_group::{Group, Memo, Steps, check_with_tagged_keys};
use dsec_name::{Name, NoMemory};
use dsec_node::{Config, Keys};
use dsec_number::Timestamp;
use std::alloc::Global;
use std::sync::ledger::Ledger;

/// A good signature, and the key that made it.
#[derive(Clone, Copy)]
pub(crate) struct SignedBy {
    /// The signature's index in the group's `sig_set`.
    pub signature: usize,
    /// The key's index among the zone's.
    pub key: usize,
}

/// What a group's set comes to under the keys of a zone.
#[derive(Clone, Copy)]
pub(crate) enum SignedSet {
    /// The zone has signed it as it stands.
    Signed(SignedBy),
    /// The zone has signed a wildcard's set, and this is an expansion (RFC 4035 5.3.4).
    Expanded,
    /// No signature is good, and why.
    Refused(Cause),
}

/// What a group's set comes to under the keys of a zone, at a moment in seconds since 1970.
pub(crate) fn under_keys<V: Verifier, L: Ledger>(
    alloc: Global,
    config: &Config,
    now: u64,
    zone: &Name,
    keys: &Keys,
    group: &Group,
    memo: &mut impl Memo<V>,
    steps: &mut Steps<L>,
) -> Result<SignedSet, NoMemory>
    ensures set { IfOk result (λ set. ComesTo group.now (keys_of keys.now) set
        (checked V.accepts group.now (place zone.now) (keys_of keys.now) (config.now.max_bad_signatures + 1) (on_circle now))) }
    ensures later { steps.old ≤ steps.new }
    ensures bound { steps.new ≤ steps.old + (config.now.max_bad_signatures + 1) }
{
    let t = Timestamp::from_seconds(now);
    let limits = config.limits();
    let check = check_with_tagged_keys::<V, L, Keys>(
        alloc, group, zone, keys, &limits, t, memo, steps,
    )?;
    match (check.cause, check.signature, check.key) {
        (None, Some(signature), Some(key)) => Ok(signed_by(group, SignedBy { signature, key })),
        (Some(cause), _, _) => Ok(SignedSet::Refused(cause)),
        _ => Ok(SignedSet::Refused(Cause::NoSignature)),
    }
}

/// The same, where the pair at these indexes is good.
fn signed_by(group: &Group, by: SignedBy) -> SignedSet
    requires { by.signature < length group.now.signatures }
    ensures { (keys : List records.Key) (p : records.Record × records.Key) → IsPairAt group.now keys by p → ComesTo group.now keys result (good p) }
{
    if is_expanded(group, &group.sig_set()[by.signature]) {
        SignedSet::Expanded
    } else {
        SignedSet::Signed(by)
    }
}
