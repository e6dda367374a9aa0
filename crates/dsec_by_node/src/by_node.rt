//! Groups validated by a node (RFC 4035 4.3, 4.5, 5.3).

ghost use Rattle.std.specs.Prelude.{◌≡◌, ◌≢◌, ◌<◌, ◌≤◌, ◌+◌, ◌&&◌, nat_le, [], List, IfOk, false, true};
ghost use Rattle.std.specs.Arc.{arc_value};
ghost use Rattle.dsec_spec.specs.Records as records;
ghost use Rattle.dsec_nodes.specs.Judging.{by_node};
ghost use Rattle.dsec_nodes.specs.Nodes.{Kept};
ghost use Rattle.dsec_nodes.specs.World.{on_circle, Bounds};
ghost use Rattle.dsec_node.specs.Views.{bounds_of, world_of};
ghost use Rattle.dsec_by_node.specs.Answers.{CanBeTold, answer_by};
ghost use Rattle.dsec_by_node.specs.WithNode.{answer_with, is_over as over, is_secure as secure, seconds_found, seconds_with, tells_of as tells, undetermined, IsShownBy};

use crate::answer::WithNode;
use crate::grounds::by_judged;
use crate::told::Told;
use crate::zone::stands_over;
use dsec_crypto::Verifier;
use dsec_found::judged_by_node;
use dsec_group::{Group, Memo, Steps, ValidationState};
use dsec_name::NoMemory;
use dsec_node::{Config, Node, Standing};
use std::alloc::Global;
use std::marker::Brand;
use std::sync::Arc;
use std::sync::ledger::{Blank, Ledger};

/// What is told of a group by a node at a moment, in seconds since 1970: by trying the keys of the node's zone, or by what the node says.
/// A node that isn't kept at the moment tells nothing, nor does one that isn't at or above where the group is looked for: the group is
/// then Indeterminate, without a cause, and that is kept for no second. A Secure answer comes with the links that show the group: the node's, and
/// behind them the group's own.
pub fn validate_with_node<V: Verifier>(
    alloc: Global,
    group: &Group,
    node: &Arc<Node<V>>,
    config: &Config,
    memo: &mut impl Memo<V>,
    now: u64,
) -> Result<WithNode<V>, NoMemory>
    requires { group.now.records ≢ [] }
    ensures answer { IfOk result (λ it. it.told.answer ≡ answer_with (world_of V.accepts [] (bounds_of config.now) now) group.now (arc_value node.now)) }
    ensures seconds { IfOk result (λ it. it.seconds ≡ seconds_with (world_of V.accepts [] (bounds_of config.now) now) group.now (arc_value node.now)) }
    ensures elsewhere { over (arc_value node.now) group.now ≡ false → IfOk result (λ it. it.told.answer ≡ undetermined) }
    ensures sound { IfOk result (λ it. CanBeTold V.accepts group.now (arc_value node.now).signer it.told) }
    ensures shown { IfOk result (λ it. IsShownBy (world_of V.accepts [] (bounds_of config.now) now) group.now (arc_value node.now) it.told) }
{
    counted::<V, Brand>(alloc, group, node, config, memo, now, Blank::new(1))
}

/// The same, on a ledger that the blank opens.
fn counted<V: Verifier, L: Ledger>(
    alloc: Global,
    group: &Group,
    node: &Arc<Node<V>>,
    config: &Config,
    memo: &mut impl Memo<V>,
    now: u64,
    blank: Blank,
) -> Result<WithNode<V>, NoMemory>
    requires has_records { group.now.records ≢ [] }
    requires name { blank.name ≡ L.name }
    requires parts { blank.parts ≡ L.parts }
    requires shared { 0 < L.parts }
    ensures answer { IfOk result (λ it. it.told.answer ≡ answer_with (world_of V.accepts [] (bounds_of config.now) now) group.now (arc_value node.now)) }
    ensures seconds { IfOk result (λ it. it.seconds ≡ seconds_with (world_of V.accepts [] (bounds_of config.now) now) group.now (arc_value node.now)) }
    ensures elsewhere { over (arc_value node.now) group.now ≡ false → IfOk result (λ it. it.told.answer ≡ undetermined) }
    ensures sound { IfOk result (λ it. CanBeTold V.accepts group.now (arc_value node.now).signer it.told) }
    ensures shown { IfOk result (λ it. IsShownBy (world_of V.accepts [] (bounds_of config.now) now) group.now (arc_value node.now) it.told) }
{
    let mut steps = Steps::<L>::begin(blank);
    validate_with_node_in_steps::<V, L>(alloc, group, node, config, memo, now, &mut steps)
}

/// The same, where its checks of signatures are counted: at most `max_bad_signatures + 1`, each in a step, and none by a node that tells
/// nothing.
pub fn validate_with_node_in_steps<V: Verifier, L: Ledger>(
    alloc: Global,
    group: &Group,
    node: &Arc<Node<V>>,
    config: &Config,
    memo: &mut impl Memo<V>,
    now: u64,
    steps: &mut Steps<L>,
) -> Result<WithNode<V>, NoMemory>
    requires { group.now.records ≢ [] }
    ensures answer { IfOk result (λ it. it.told.answer ≡ answer_with (world_of V.accepts [] (bounds_of config.now) now) group.now (arc_value node.now)) }
    ensures seconds { IfOk result (λ it. it.seconds ≡ seconds_with (world_of V.accepts [] (bounds_of config.now) now) group.now (arc_value node.now)) }
    ensures elsewhere { over (arc_value node.now) group.now ≡ false → IfOk result (λ it. it.told.answer ≡ undetermined) }
    ensures sound { IfOk result (λ it. CanBeTold V.accepts group.now (arc_value node.now).signer it.told) }
    ensures shown { IfOk result (λ it. IsShownBy (world_of V.accepts [] (bounds_of config.now) now) group.now (arc_value node.now) it.told) }
    ensures bound { steps.new ≤ steps.old + (config.now.max_bad_signatures + 1) }
    ensures idle { tells (world_of V.accepts [] (bounds_of config.now) now) group.now (arc_value node.now) ≡ false → steps.new ≡ steps.old }
{
    if tells_of(group, node, now) {
        told_by_node::<V, L>(alloc, group, node, config, memo, now, steps)
    } else {
        Ok(WithNode {
            told: Told::unsecured(ValidationState::Indeterminate, None),
            seconds: 0,
        })
    }
}

/// Whether a node tells something of a group at a moment.
fn tells_of<V: Verifier>(group: &Group, node: &Node<V>, now: u64) -> bool
    ensures { (bounds : Bounds) → result ≡ tells (world_of V.accepts [] bounds now) group.now node.now }
{
    is_kept(node, now) && stands_over(node.name(), group)
}

/// Whether a node is kept at a moment.
#[tactic(auto, using(crate::proofs::TellingLaws::kept_test))]
fn is_kept<V: Verifier>(node: &Node<V>, now: u64) -> bool
    ensures { result ≡ (nat_le node.now.made now && nat_le now (node.now.made + node.now.valid_for)) }
{
    !node.expired(now)
}

/// What is told of a group by a node that tells something of it.
fn told_by_node<V: Verifier, L: Ledger>(
    alloc: Global,
    group: &Group,
    node: &Arc<Node<V>>,
    config: &Config,
    memo: &mut impl Memo<V>,
    now: u64,
    steps: &mut Steps<L>,
) -> Result<WithNode<V>, NoMemory>
    requires has_records { group.now.records ≢ [] }
    requires tells { tells (world_of V.accepts [] (bounds_of config.now) now) group.now (arc_value node.now) ≡ true }
    ensures answer { IfOk result (λ it. (anchors : List records.Record) → it.told.answer
        ≡ answer_by group.now (on_circle now) (by_node (world_of V.accepts anchors (bounds_of config.now) now) group.now (arc_value node.now)).finding) }
    ensures seconds { IfOk result (λ it. it.seconds ≡ seconds_found (world_of V.accepts [] (bounds_of config.now) now) group.now (arc_value node.now)) }
    ensures sound { IfOk result (λ it. CanBeTold V.accepts group.now (arc_value node.now).signer it.told) }
    ensures shown { IfOk result (λ it. IsShownBy (world_of V.accepts [] (bounds_of config.now) now) group.now (arc_value node.now) it.told) }
    ensures bound { steps.new ≤ steps.old + (config.now.max_bad_signatures + 1) }
{
    let own = group.clone()?;
    let shared = shared_copy(node)?;
    let judged = judged_by_node::<V, L>(alloc, config, now, own, shared, memo, steps)?;
    rely_on(node);
    by_judged(alloc, config, now, node, &judged)
}

/// What a node's type says: what it tells holds as long as it is kept (RFC 4035 4.5).
fn rely_on<V: Verifier>(node: &Node<V>)
    ensures { Kept V.accepts node.now }
{
    let _ = node.standing();
}

/// Whether a node is Secure.
pub(crate) fn is_secure<V: Verifier>(node: &Node<V>) -> bool
    ensures { result ≡ secure node.now.standing }
{
    match node.standing() {
        Standing::Apex(_) | Standing::Within(_) => true,
        Standing::Insecure(_, _) | Standing::Bogus(_) => false,
    }
}

/// The same node, shared once more.
fn shared_copy<V: Verifier>(node: &Arc<Node<V>>) -> Result<Arc<Node<V>>, NoMemory>
    ensures { IfOk result (λ copy. arc_value copy ≡ arc_value node.now) }
{
    Ok(Arc::try_clone(node)?)
}
