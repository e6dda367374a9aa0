//! Why DS is missing, by a reply's NSEC records or else by its NSEC3 records (RFC 4035 5.2, RFC 5155 8.9).

ghost use Rattle.std.specs.Prelude.{◌≡◌, ◌≤◌, ◌+◌, ◌*◌, List, ℕ, IfOk, length};
ghost use Rattle.dsec_denial.specs.Findings.{AreThere, Finds, Follows, GoesBy, then_found};
ghost use Rattle.dsec_nodes.specs.Signing.{keys_of};
ghost use Rattle.dsec_nodes.specs.MissingDs.{looked_for};
ghost use Rattle.dsec_nodes.specs.Nodes.{Node};
ghost use Rattle.dsec_nodes.specs.World.{World};
ghost use Rattle.dsec_spec.specs.Names.{place};

use crate::finding::DsFinding;
use crate::hashed_search::nsec3_for_missing_ds;
use crate::search::nsec_for_missing_ds;
use dsec_cause::Cause;
use dsec_crypto::Verifier;
use dsec_group::{Group, Limits, Memo, Steps};
use dsec_name::{Name, NoMemory};
use dsec_node::Keys;
use dsec_number::Timestamp;
use std::alloc::Global;
use std::sync::ledger::Ledger;

/// What the groups show of a name where no DS set stands for it: by their NSEC records, and where these show nothing, by their
/// NSEC3 records; why nothing is shown, by the last that says so. For each group at most `max_bad_signatures + 1` signatures are
/// checked.
pub fn denials_for_missing_ds<V: Verifier, L: Ledger>(
    alloc: Global,
    groups: &[Group],
    name: &Name,
    apex: &Name,
    keys: &Keys,
    limits: &Limits,
    t: Timestamp,
    memo: &mut impl Memo<V>,
    steps: &mut Steps<L>,
) -> Result<DsFinding, NoMemory>
    ensures there { IfOk result (AreThere groups.now (keys_of keys.now)) }
    ensures found { IfOk result (λ found. (w : World) (zone : Node) (datas : List (List ℕ))
        → GoesBy V.accepts (place apex.now) (keys_of keys.now) (limits.now.max_bad_signatures + 1) t w zone datas
        → Follows limits.now.nsec3_iter_insecure limits.now.nsec3_iter_bogus w
        → Finds w zone datas (place name.now) groups.now (keys_of keys.now) found (looked_for w zone datas (place name.now) groups.now)) }
    ensures later { steps.old ≤ steps.new }
    ensures bound { steps.new ≤ steps.old + length groups.now * (limits.now.max_bad_signatures + 1) }
{
    let first = nsec_for_missing_ds::<V, L>(
        alloc, groups, name, apex, keys, limits, t, memo, steps,
    )?;
    let DsFinding::Passed(cause) = first else {
        return Ok(first);
    };
    let later = nsec3_for_missing_ds::<V, L>(
        alloc, groups, name, apex, keys, limits, t, memo, steps,
    )?;
    Ok(after(cause, later))
}

/// What was found after records that showed nothing, and left this cause.
fn after(cause: Option<Cause>, later: DsFinding) -> DsFinding
    ensures { result ≡ then_found cause later }
{
    match later {
        DsFinding::Passed(last) => DsFinding::Passed(last.or(cause)),
        _ => later,
    }
}
