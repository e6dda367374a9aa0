//! A walk served to its end over caches and an upstream (RFC 4035 4.3).

ghost use Rattle.std.specs.Prelude.{◌≡◌, ℕ, true};
ghost use Rattle.std.specs.Arc.{arc_value};
ghost use Rattle.dsec_spec.specs.Names.{Place, place, IsAtOrBelow};
ghost use Rattle.dsec_nodes.specs.Machine.{done};
ghost use Rattle.dsec_lookup.specs.Outside.{Outside};
ghost use Rattle.dsec_walk.specs.Views.{step_view, world_in};
ghost use Rattle.dsec_single.specs.Progress.{is_last, IsOn};
ghost use Rattle.dsec_single.specs.Turns.{EndsOn};

use crate::turn::turn;
use dsec_crypto::Verifier;
use dsec_group::{Memo, Steps};
use dsec_name::{Name, NoMemory};
use dsec_node::{Caches, Node};
use dsec_outside::Upstream;
use dsec_walk::{Input, Setting, Step, Walk};
use std::alloc::Global;
use std::sync::Arc;
use std::sync::ledger::Ledger;

/// Whether a step is the end.
fn is_end<V: Verifier>(step: &Step<V>) -> bool
    ensures { result ≡ is_last (step_view step.now) }
{
    match step {
        Step::NodeGet(_) => false,
        Step::NodePut(_, _) => false,
        Step::Ask(_, _) => false,
        Step::Done(_) => true,
    }
}

/// The node that a walk ends with which has come to this step.
pub(crate) fn serve<V: Verifier, C: Caches<V>, M: Memo<V>, U: Upstream, L: Ledger>(
    alloc: Global,
    setting: &Setting<'_>,
    walk: &mut Walk<V>,
    caches: &mut C,
    memo: &mut M,
    upstream: &mut U,
    steps: &mut Steps<L>,
    step: Step<V>,
) -> Result<Arc<Node<V>>, NoMemory>
    requires on { (before : Outside) × (top : Place) × (target : Place) × (from : ℕ)
        × IsOn (world_in V.accepts setting.now) (U.table upstream.old) before (record { held = C.held caches.old; lasting = C.lasting caches.old; asked = U.asked upstream.old; faults = U.faults upstream.old; heard = U.heard upstream.old }) top target walk.old (step_view step) from steps.old }
    ensures ends { (before : Outside) (top target : Place) (from : ℕ)
        → IsOn (world_in V.accepts setting.now) (U.table upstream.old) before (record { held = C.held caches.old; lasting = C.lasting caches.old; asked = U.asked upstream.old; faults = U.faults upstream.old; heard = U.heard upstream.old }) top target walk.old (step_view step) from steps.old
        → EndsOn (world_in V.accepts setting.now) (U.table upstream.old) before (record { held = C.held caches.new; lasting = C.lasting caches.new; asked = U.asked upstream.new; faults = U.faults upstream.new; heard = U.heard upstream.new }) top target from steps.new result (λ node. arc_value node) }
    ensures same_table { U.table upstream.new ≡ U.table upstream.old }
{
    let mut last = step;
    while !is_end(&last) {
        match turn(alloc, setting, walk, caches, memo, upstream, steps, last) {
            Ok(next) => last = next,
            Err(NoMemory) => return Err(NoMemory),
        }
    }
    Ok(node_of(last))
}

/// The node that a walk from an island to a zone comes to.
pub(crate) fn node_for<V: Verifier, C: Caches<V>, M: Memo<V>, U: Upstream, L: Ledger>(
    alloc: Global,
    setting: &Setting<'_>,
    top: Name,
    zone: Name,
    caches: &mut C,
    memo: &mut M,
    upstream: &mut U,
    steps: &mut Steps<L>,
) -> Result<Arc<Node<V>>, NoMemory>
    requires { IsAtOrBelow (place zone) (place top) }
    ensures ends { EndsOn (world_in V.accepts setting.now) (U.table upstream.old) (record { held = C.held caches.old; lasting = C.lasting caches.old; asked = U.asked upstream.old; faults = U.faults upstream.old; heard = U.heard upstream.old })
        (record { held = C.held caches.new; lasting = C.lasting caches.new; asked = U.asked upstream.new; faults = U.faults upstream.new; heard = U.heard upstream.new }) (place top) (place zone) steps.old steps.new result (λ node. arc_value node) }
    ensures same_table { U.table upstream.new ≡ U.table upstream.old }
{
    let mut walk = Walk::start(alloc, top, zone);
    match walk.advance::<L>(alloc, setting, Input::Begin, memo, steps) {
        Ok(first) => serve(
            alloc, setting, &mut walk, caches, memo, upstream, steps, first,
        ),
        Err(NoMemory) => Err(NoMemory),
    }
}

/// The node of the last step.
fn node_of<V: Verifier>(last: Step<V>) -> Arc<Node<V>>
    requires { is_last (step_view last) ≡ true }
    ensures { step_view last ≡ done (arc_value result) }
{
    match last {
        Step::Done(node) => node,
        _ => unreachable!(),
    }
}
