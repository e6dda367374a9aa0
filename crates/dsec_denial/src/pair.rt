//! The good signature of a group under the keys of a zone (RFC 4035 5.3).

ghost use Rattle.std.specs.Prelude.{◌≡◌, ◌≤◌, ◌<◌, ◌+◌, IfOk, length};
ghost use Rattle.dsec_spec.specs.Names.{place};
ghost use Rattle.dsec_spec.specs.Trying.{checked};
ghost use Rattle.dsec_nodes.specs.Signing.{keys_of};
ghost use Rattle.dsec_denial.specs.Findings.{IsTried};

use dsec_cause::Cause;
use dsec_crypto::Verifier;
use dsec_group::{Group, Limits, Memo, Steps, check_with_tagged_keys};
use dsec_name::{Name, NoMemory};
use dsec_node::Keys;
use dsec_number::Timestamp;
use std::alloc::Global;
use std::sync::ledger::Ledger;

/// A good signature and its key.
#[derive(Clone, Copy)]
pub(crate) struct Pair {
    /// The signature's index in the group's `sig_set`.
    pub signature: usize,
    /// The key's index among the keys.
    pub key: usize,
}

/// The good signature of a group under the keys of the zone, or why none is good.
pub(crate) fn good_pair<V: Verifier, L: Ledger>(
    alloc: Global,
    group: &Group,
    apex: &Name,
    keys: &Keys,
    limits: &Limits,
    t: Timestamp,
    memo: &mut impl Memo<V>,
    steps: &mut Steps<L>,
) -> Result<Result<Pair, Cause>, NoMemory>
    ensures tried { IfOk result (IsTried group.now (keys_of keys.now) (checked V.accepts group.now (place apex.now) (keys_of keys.now) (limits.now.max_bad_signatures + 1) t)) }
    ensures inside { IfOk result (λ it. IfOk it (λ pair. pair.signature < length group.now.signatures)) }
    ensures later { steps.old ≤ steps.new }
    ensures bound { steps.new ≤ steps.old + (limits.now.max_bad_signatures + 1) }
{
    let check = check_with_tagged_keys::<V, L, Keys>(
        alloc, group, apex, keys, limits, t, memo, steps,
    )?;
    match (check.cause, check.signature, check.key) {
        (None, Some(signature), Some(key)) => Ok(Ok(Pair { signature, key })),
        (Some(cause), _, _) => Ok(Err(cause)),
        _ => Ok(Err(Cause::NoSignature)),
    }
}
