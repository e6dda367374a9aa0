//! A message judged to its end over caches and an upstream (RFC 4035 4.3).

ghost use Rattle.std.specs.Prelude.{◌≡◌, ◌≤◌, ℕ, List, length, true, IfOk, OnOk};
ghost use Rattle.dsec_core.specs.Validating.{with_course, world_by};
ghost use Rattle.dsec_core.specs.Views.{step_view};
ghost use Rattle.dsec_course.specs.Course.{asked_in};
ghost use Rattle.dsec_context.specs.Calls.{most_questions};
ghost use Rattle.dsec_context.specs.Outside.{Outside};
ghost use Rattle.dsec_context.specs.Turns.{asks, ends, AreFew, CountsTo, IsAt};

use crate::turn::turn;
use dsec_core::{Step, Validation};
use dsec_crypto::Verifier;
use dsec_found::Error;
use dsec_group::{Memo, Steps};
use dsec_node::Caches;
use dsec_outside::Upstream;
use std::alloc::Global;
use std::sync::ledger::Ledger;

/// Whether a step is the end.
fn is_end<V: Verifier>(step: &Step<V>) -> bool
    ensures { result ≡ ends (step_view step.now) }
{
    match step {
        Step::NodeGet(_) => false,
        Step::NodePut(_, _) => false,
        Step::Ask(_, _) => false,
        Step::Done(_) => true,
    }
}

/// How many questions a step asks.
fn questions_in<V: Verifier>(step: &Step<V>) -> u32
    ensures { result ≡ asks (step_view step.now) }
{
    match step {
        Step::NodeGet(_) => 0,
        Step::NodePut(_, _) => 0,
        Step::Ask(_, _) => 1,
        Step::Done(_) => 0,
    }
}

/// The last step of a message that has come to this one, where its questions are counted.
pub(crate) fn serve<V: Verifier, C: Caches<V>, M: Memo<V>, U: Upstream, L: Ledger>(
    alloc: Global,
    validation: &mut Validation<V>,
    caches: &mut C,
    memo: &mut M,
    upstream: &mut U,
    steps: &mut Steps<L>,
    questions: &mut u32,
    step: Step<V>,
) -> Result<Step<V>, Error>
    requires counted { questions.old ≡ length (asked_in validation.old.course) }
    requires at { (most : ℕ) × (message : List ℕ) × (before : Outside)
        × IsAt (world_by V.accepts validation.old) most message (U.table upstream.old) before (record { held = C.held caches.old; lasting = C.lasting caches.old; asked = U.asked upstream.old; faults = U.faults upstream.old; heard = U.heard upstream.old }) validation.old.course (step_view step) × (most_questions validation.old.anchors most message ≤ 33422850) }
    ensures counted { OnOk result (questions.new ≡ length (asked_in validation.new.course)) }
    ensures ends { (most : ℕ) (message : List ℕ) (before : Outside)
        → IsAt (world_by V.accepts validation.old) most message (U.table upstream.old) before (record { held = C.held caches.old; lasting = C.lasting caches.old; asked = U.asked upstream.old; faults = U.faults upstream.old; heard = U.heard upstream.old }) validation.old.course (step_view step)
        → IfOk result (λ last. (ends (step_view last) ≡ true)
        × IsAt (world_by V.accepts validation.old) most message (U.table upstream.old) before (record { held = C.held caches.new; lasting = C.lasting caches.new; asked = U.asked upstream.new; faults = U.faults upstream.new; heard = U.heard upstream.new }) validation.new.course (step_view last)) }
    ensures checks { (most : ℕ) (message : List ℕ) (before : Outside) (from : ℕ)
        → IsAt (world_by V.accepts validation.old) most message (U.table upstream.old) before (record { held = C.held caches.old; lasting = C.lasting caches.old; asked = U.asked upstream.old; faults = U.faults upstream.old; heard = U.heard upstream.old }) validation.old.course (step_view step)
        → AreFew (world_by V.accepts validation.old) validation.old.course from steps.old
        → CountsTo (world_by V.accepts validation.old) most message (U.table upstream.old) before (record { held = C.held caches.new; lasting = C.lasting caches.new; asked = U.asked upstream.new; faults = U.faults upstream.new; heard = U.heard upstream.new }) validation.new.course from steps.new result }
    ensures same { validation.new ≡ with_course validation.old validation.new.course }
    ensures same_table { U.table upstream.new ≡ U.table upstream.old }
{
    let mut last = step;
    while !is_end(&last) {
        *questions += questions_in(&last);
        match turn(alloc, validation, caches, memo, upstream, steps, last) {
            Ok(next) => last = next,
            Err(error) => return Err(error),
        }
    }
    Ok(last)
}
