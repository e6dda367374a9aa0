//! One step of a message that is judged over caches and an upstream (RFC 4035 4.3).

ghost use Rattle.std.specs.Prelude.{◌≡◌, ◌<◌, ◌+◌, ℕ, List, length, false, IfOk};
ghost use Rattle.dsec_core.specs.Validating.{with_course, world_by};
ghost use Rattle.dsec_core.specs.Views.{step_view};
ghost use Rattle.dsec_course.specs.Course.{asked_in, Awaits};
ghost use Rattle.dsec_course.specs.Ending.{steps_left};
ghost use Rattle.dsec_context.specs.Outside.{Outside};
ghost use Rattle.dsec_context.specs.Turns.{asks, ends, AreFew, CountsTo, IsAt};

use crate::answering::answer_to;
use dsec_core::{Step, Validation};
use dsec_crypto::Verifier;
use dsec_found::Error;
use dsec_group::{Memo, Steps};
use dsec_name::NoMemory;
use dsec_node::Caches;
use dsec_outside::Upstream;
use std::alloc::Global;
use std::sync::ledger::Ledger;

/// The step after one that isn't the end, which caches or the upstream have answered.
pub(crate) fn turn<V: Verifier, C: Caches<V>, M: Memo<V>, U: Upstream, L: Ledger>(
    alloc: Global,
    validation: &mut Validation<V>,
    caches: &mut C,
    memo: &mut M,
    upstream: &mut U,
    steps: &mut Steps<L>,
    step: Step<V>,
) -> Result<Step<V>, Error>
    requires goes_on { ends (step_view step) ≡ false }
    requires awaits { Awaits (step_view step) validation.old.course.waits }
    ensures comes { (most : ℕ) (message : List ℕ) (before : Outside)
        → IsAt (world_by V.accepts validation.old) most message (U.table upstream.old) before (record { held = C.held caches.old; lasting = C.lasting caches.old; asked = U.asked upstream.old; faults = U.faults upstream.old; heard = U.heard upstream.old }) validation.old.course (step_view step)
        → IfOk result (λ next. IsAt (world_by V.accepts validation.old) most message (U.table upstream.old) before (record { held = C.held caches.new; lasting = C.lasting caches.new; asked = U.asked upstream.new; faults = U.faults upstream.new; heard = U.heard upstream.new }) validation.new.course (step_view next)) }
    ensures nearer { (most : ℕ) (message : List ℕ) (before : Outside)
        → IsAt (world_by V.accepts validation.old) most message (U.table upstream.old) before (record { held = C.held caches.old; lasting = C.lasting caches.old; asked = U.asked upstream.old; faults = U.faults upstream.old; heard = U.heard upstream.old }) validation.old.course (step_view step)
        → IfOk result (λ _. steps_left (world_by V.accepts validation.old) validation.new.course < steps_left (world_by V.accepts validation.old) validation.old.course) }
    ensures asked { (most : ℕ) (message : List ℕ) (before : Outside)
        → IsAt (world_by V.accepts validation.old) most message (U.table upstream.old) before (record { held = C.held caches.old; lasting = C.lasting caches.old; asked = U.asked upstream.old; faults = U.faults upstream.old; heard = U.heard upstream.old }) validation.old.course (step_view step)
        → IfOk result (λ _. length (asked_in validation.new.course) ≡ length (asked_in validation.old.course) + asks (step_view step)) }
    ensures checks { (most : ℕ) (message : List ℕ) (before : Outside) (from : ℕ)
        → IsAt (world_by V.accepts validation.old) most message (U.table upstream.old) before (record { held = C.held caches.old; lasting = C.lasting caches.old; asked = U.asked upstream.old; faults = U.faults upstream.old; heard = U.heard upstream.old }) validation.old.course (step_view step)
        → AreFew (world_by V.accepts validation.old) validation.old.course from steps.old
        → CountsTo (world_by V.accepts validation.old) most message (U.table upstream.old) before (record { held = C.held caches.new; lasting = C.lasting caches.new; asked = U.asked upstream.new; faults = U.faults upstream.new; heard = U.heard upstream.new }) validation.new.course from steps.new result }
    ensures same { validation.new ≡ with_course validation.old validation.new.course }
    ensures same_table { U.table upstream.new ≡ U.table upstream.old }
{
    match answer_to(alloc, caches, upstream, step) {
        Ok(input) => validation.advance::<L>(alloc, input, memo, steps),
        Err(NoMemory) => Err(Error::NoMemory),
    }
}
