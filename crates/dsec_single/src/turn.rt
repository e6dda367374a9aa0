//! One step of a walk that is served over caches and an upstream (RFC 4035 4.3).

ghost use Rattle.std.specs.Prelude.{◌≡◌, ◌<◌, ℕ, false, IfOk};
ghost use Rattle.dsec_spec.specs.Names.{Place};
ghost use Rattle.dsec_course.specs.Ending.{steps_ahead};
ghost use Rattle.dsec_lookup.specs.Outside.{Outside};
ghost use Rattle.dsec_walk.specs.Views.{step_view, world_in};
ghost use Rattle.dsec_single.specs.Progress.{is_last, IsOn};
ghost use Rattle.dsec_single.specs.Turns.{ComesOn};

use crate::answering::answer_to;
use dsec_crypto::Verifier;
use dsec_group::{Memo, Steps};
use dsec_name::NoMemory;
use dsec_node::Caches;
use dsec_outside::Upstream;
use dsec_walk::{Setting, Step, Walk};
use std::alloc::Global;
use std::sync::ledger::Ledger;

/// The step after one that isn't the end, which caches or the upstream have answered.
pub(crate) fn turn<V: Verifier, C: Caches<V>, M: Memo<V>, U: Upstream, L: Ledger>(
    alloc: Global,
    setting: &Setting<'_>,
    walk: &mut Walk<V>,
    caches: &mut C,
    memo: &mut M,
    upstream: &mut U,
    steps: &mut Steps<L>,
    step: Step<V>,
) -> Result<Step<V>, NoMemory>
    requires goes_on { is_last (step_view step) ≡ false }
    requires on { (before : Outside) × (top : Place) × (target : Place) × (from : ℕ)
        × IsOn (world_in V.accepts setting.now) (U.table upstream.old) before (record { held = C.held caches.old; lasting = C.lasting caches.old; asked = U.asked upstream.old; faults = U.faults upstream.old; heard = U.heard upstream.old }) top target walk.old (step_view step) from steps.old }
    ensures comes { (before : Outside) (top target : Place) (from : ℕ)
        → IsOn (world_in V.accepts setting.now) (U.table upstream.old) before (record { held = C.held caches.old; lasting = C.lasting caches.old; asked = U.asked upstream.old; faults = U.faults upstream.old; heard = U.heard upstream.old }) top target walk.old (step_view step) from steps.old
        → ComesOn (world_in V.accepts setting.now) (U.table upstream.old) before (record { held = C.held caches.new; lasting = C.lasting caches.new; asked = U.asked upstream.new; faults = U.faults upstream.new; heard = U.heard upstream.new }) top target walk.new from steps.new result }
    ensures nearer { IfOk result (λ _. steps_ahead walk.new < steps_ahead walk.old) }
    ensures same_table { U.table upstream.new ≡ U.table upstream.old }
{
    match answer_to(alloc, caches, upstream, step) {
        Ok(input) => walk.advance::<L>(alloc, setting, input, memo, steps),
        Err(NoMemory) => Err(NoMemory),
    }
}
