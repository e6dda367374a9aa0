//! The search of a reply's NSEC records for why DS is missing (RFC 4035 5.2).

ghost use Rattle.std.specs.Prelude.{◌≡◌, ◌≤◌, ◌<◌, ◌+◌, ◌*◌, [], ◌∷◌, List, ℕ, Some, IfOk, length, slice_get};
ghost use Rattle.dsec_denial.specs.Findings.{AreThere, Finds, GoesBy, how_many};
ghost use Rattle.dsec_nodes.specs.Signing.{keys_of};
ghost use Rattle.dsec_nodes.specs.MissingDs.{by_group as shown_by, nsec_search};
ghost use Rattle.dsec_nodes.specs.Nodes.{Node};
ghost use Rattle.dsec_nodes.specs.World.{World};
ghost use Rattle.dsec_spec.specs.Groups as grouping;
ghost use Rattle.dsec_spec.specs.Names.{place};
ghost use Rattle.dsec_spec.specs.Numbers.{NSEC};

use crate::decision::decide;
use crate::finding::DsFinding;
use crate::pair::good_pair;
use crate::reading::{Reading, read};
use dsec_crypto::Verifier;
use dsec_group::{Group, Limits, Memo, Steps};
use dsec_name::{Name, NoMemory};
use dsec_node::Keys;
use dsec_number::Timestamp;
use std::alloc::Global;
use std::sync::ledger::Ledger;

/// What the NSEC records among the groups show of a name where no DS set stands for it, under the keys of the zone above, which
/// are trusted by what the caller knows: the first group in order of arrival that decides; else why nothing is shown, by
/// the last that says so. Groups of class IN with one NSEC record count. For each group of the type the steps of one check are taken at
/// most.
pub fn nsec_for_missing_ds<V: Verifier, L: Ledger>(
    alloc: Global,
    groups: &[Group],
    name: &Name,
    apex: &Name,
    keys: &Keys,
    limits: &Limits,
    t: Timestamp,
    memo: &mut impl Memo<V>,
    steps: &mut Steps<L>,
) -> Result<DsFinding, NoMemory>
    ensures there { IfOk result (AreThere groups.now (keys_of keys.now)) }
    ensures found { IfOk result (λ found. (w : World) (zone : Node) (datas : List (List ℕ))
        → GoesBy V.accepts (place apex.now) (keys_of keys.now) (limits.now.max_bad_signatures + 1) t w zone datas
        → Finds w zone datas (place name.now) groups.now (keys_of keys.now) found (nsec_search w zone datas (place name.now) groups.now)) }
    ensures later { steps.old ≤ steps.new }
    ensures bound { steps.new ≤ steps.old + how_many NSEC groups.now * (limits.now.max_bad_signatures + 1) }
{
    let mut last = None;
    for index in 0..groups.len() {
        let found = by_group::<V, L>(
            alloc, groups, index, name, apex, keys, limits, t, memo, steps,
        )?;
        let DsFinding::Passed(cause) = found else {
            return Ok(found);
        };
        last = cause.or(last);
    }
    Ok(DsFinding::Passed(last))
}

/// What the group at an index shows.
fn by_group<V: Verifier, L: Ledger>(
    alloc: Global,
    groups: &[Group],
    index: usize,
    name: &Name,
    apex: &Name,
    keys: &Keys,
    limits: &Limits,
    t: Timestamp,
    memo: &mut impl Memo<V>,
    steps: &mut Steps<L>,
) -> Result<DsFinding, NoMemory>
    requires { index < length groups.now }
    ensures there { IfOk result (AreThere groups.now (keys_of keys.now)) }
    ensures found { IfOk result (λ found. (w : World) (zone : Node) (datas : List (List ℕ)) (group : grouping.Group)
        → GoesBy V.accepts (place apex.now) (keys_of keys.now) (limits.now.max_bad_signatures + 1) t w zone datas → slice_get groups.now index ≡ Some group
        → Finds w zone datas (place name.now) groups.now (keys_of keys.now) found (shown_by w zone datas (place name.now) group)) }
    ensures later { steps.old ≤ steps.new }
    ensures bound { (group : grouping.Group) → slice_get groups.now index ≡ Some group
        → steps.new ≤ steps.old + how_many NSEC (group ∷ []) * (limits.now.max_bad_signatures + 1) }
{
    let group = &groups[index];
    let reading = read(alloc, group, name)?;
    if let Reading::Nothing(cause) = reading {
        return Ok(DsFinding::Passed(cause));
    }
    match good_pair::<V, L>(alloc, group, apex, keys, limits, t, memo, steps)? {
        Ok(pair) => {
            let decision = decide(&reading, group, &group.sig_set()[pair.signature]);
            Ok(decision.at(index, pair))
        }
        Err(cause) => Ok(DsFinding::Bogus(cause)),
    }
}
