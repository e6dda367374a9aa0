//! Messages judged over caches, a memo and an upstream (RFC 4033 5, RFC 4035 4.3, 4.5, 5).

ghost use Rattle.std.specs.Prelude.{◌≡◌, ◌<◌, ◌≤◌, ◌+◌, ℕ, List, length, Ok, IfOk, true};
ghost use Rattle.dsec_spec.specs.Records as records;
ghost use Rattle.dsec_node.specs.Views.{bounds_of, world_of};
ghost use Rattle.dsec_course.specs.Advancing.{begun};
ghost use Rattle.dsec_course.specs.Course.{asked_in, end_with};
ghost use Rattle.dsec_core.specs.Validating.{most_of, with_course, world_by};
ghost use Rattle.dsec_core.specs.Views.{step_view};
ghost use Rattle.dsec_context.specs.Calls.{count_of, most_questions};
ghost use Rattle.dsec_context.specs.Checked.{HeardWithin, IsJudgingWithin};
ghost use Rattle.dsec_context.specs.Judgements.{IsJudging, judgement_at};
ghost use Rattle.dsec_context.specs.Outside.{Outside};
ghost use Rattle.dsec_context.specs.Promised.{JudgesMessage};
ghost use Rattle.dsec_context.specs.Turns.{ends, AreFew, IsAt};

use crate::judgement::Judgement;
use crate::serving::serve;
use crate::verdict::Verdict;
use dsec_anchors::TrustAnchors;
use dsec_core::{Input, Step, Validation};
use dsec_crypto::Verifier;
use dsec_found::Error;
use dsec_group::{Memo, Steps};
use dsec_message::Message;
use dsec_name::NoMemory;
use dsec_node::{Caches, Config};
use dsec_outside::Upstream;
use std::alloc::Global;
use std::marker::Brand;
use std::sync::ledger::{Blank, Ledger};

/// The verdict on a message at a moment, in seconds since 1970, from these anchors, and the judged groups by which the message is
/// rewritten, if it is. Nodes are got from the caches and put into them, and the upstream is asked for what they don't have. Where
/// caches find no memory they are passed over; a question that fails has no reply.
pub fn judge_in<V: Verifier, C: Caches<V>, M: Memo<V>, U: Upstream>(
    alloc: Global,
    anchors: &TrustAnchors,
    config: &Config,
    caches: &mut C,
    memo: &mut M,
    message: &Message,
    upstream: &mut U,
    now: u64,
) -> Judgement<V>
    ensures judged { JudgesMessage (world_of V.accepts anchors.now (bounds_of config.now) now) config.now.max_cname_dname message.now (U.table upstream.old)
        (record { held = C.held caches.old; lasting = C.lasting caches.old; asked = U.asked upstream.old; faults = U.faults upstream.old; heard = U.heard upstream.old })
        (record { held = C.held caches.new; lasting = C.lasting caches.new; asked = U.asked upstream.new; faults = U.faults upstream.new; heard = U.heard upstream.new }) result }
    ensures same_table { U.table upstream.new ≡ U.table upstream.old }
{
    counted::<V, C, M, U, Brand>(
        alloc,
        anchors,
        config,
        caches,
        memo,
        message,
        upstream,
        now,
        Blank::new(1),
    )
}

/// The same, on a ledger that the blank opens.
fn counted<V: Verifier, C: Caches<V>, M: Memo<V>, U: Upstream, L: Ledger>(
    alloc: Global,
    anchors: &TrustAnchors,
    config: &Config,
    caches: &mut C,
    memo: &mut M,
    message: &Message,
    upstream: &mut U,
    now: u64,
    blank: Blank,
) -> Judgement<V>
    requires name { blank.name ≡ L.name }
    requires parts { blank.parts ≡ L.parts }
    requires shared { 0 < L.parts }
    ensures judging { IsJudging (world_of V.accepts anchors.now (bounds_of config.now) now) config.now.max_cname_dname message.now (U.table upstream.old)
        (record { held = C.held caches.old; lasting = C.lasting caches.old; asked = U.asked upstream.old; faults = U.faults upstream.old; heard = U.heard upstream.old })
        (record { held = C.held caches.new; lasting = C.lasting caches.new; asked = U.asked upstream.new; faults = U.faults upstream.new; heard = U.heard upstream.new }) result }
    ensures same_table { U.table upstream.new ≡ U.table upstream.old }
{
    let mut steps = Steps::<L>::begin(blank);
    judge_counted_in(
        alloc, anchors, config, caches, memo, message, upstream, now, &mut steps,
    )
}

/// `judge_in` on the caller's ledger: each check of a signature is one of its steps. Of each set `max_bad_signatures + 1` signatures are checked
/// at most. A question takes as many sets as its reply can have checked: to the one for a DS set a DS set, a CNAME set and each set of the
/// authority section, which has no more than 65,535 records (RFC 1035 4.1.1); to the one for a DNSKEY set that set. Each group of the message is
/// one set more. So whatever caches and upstream do, and however the call ends, the message and the replies bound the number of checks.
pub fn judge_counted_in<V: Verifier, C: Caches<V>, M: Memo<V>, U: Upstream, L: Ledger>(
    alloc: Global,
    anchors: &TrustAnchors,
    config: &Config,
    caches: &mut C,
    memo: &mut M,
    message: &Message,
    upstream: &mut U,
    now: u64,
    steps: &mut Steps<L>,
) -> Judgement<V>
    ensures judged { JudgesMessage (world_of V.accepts anchors.now (bounds_of config.now) now) config.now.max_cname_dname message.now (U.table upstream.old)
        (record { held = C.held caches.old; lasting = C.lasting caches.old; asked = U.asked upstream.old; faults = U.faults upstream.old; heard = U.heard upstream.old })
        (record { held = C.held caches.new; lasting = C.lasting caches.new; asked = U.asked upstream.new; faults = U.faults upstream.new; heard = U.heard upstream.new }) result }
    ensures checks { IsJudgingWithin (world_of V.accepts anchors.now (bounds_of config.now) now) config.now.max_cname_dname message.now (U.table upstream.old)
        (record { held = C.held caches.old; lasting = C.lasting caches.old; asked = U.asked upstream.old; faults = U.faults upstream.old; heard = U.heard upstream.old })
        (record { held = C.held caches.new; lasting = C.lasting caches.new; asked = U.asked upstream.new; faults = U.faults upstream.new; heard = U.heard upstream.new }) result steps.old steps.new }
    ensures heard { HeardWithin (U.heard upstream.old) (U.heard upstream.new) (count_of (begun anchors.now config.now.max_cname_dname message.now)) (config.now.max_bad_signatures + 1) steps.old steps.new }
    ensures same_table { U.table upstream.new ≡ U.table upstream.old }
{
    judge(
        alloc, anchors, config, caches, memo, message, upstream, now, steps,
    )
}

/// The judgement on a message, and what it takes.
fn judge<V: Verifier, C: Caches<V>, M: Memo<V>, U: Upstream, L: Ledger>(
    alloc: Global,
    anchors: &TrustAnchors,
    config: &Config,
    caches: &mut C,
    memo: &mut M,
    message: &Message,
    upstream: &mut U,
    now: u64,
    steps: &mut Steps<L>,
) -> Judgement<V>
    ensures checks { IsJudgingWithin (world_of V.accepts anchors.now (bounds_of config.now) now) config.now.max_cname_dname message.now (U.table upstream.old)
        (record { held = C.held caches.old; lasting = C.lasting caches.old; asked = U.asked upstream.old; faults = U.faults upstream.old; heard = U.heard upstream.old })
        (record { held = C.held caches.new; lasting = C.lasting caches.new; asked = U.asked upstream.new; faults = U.faults upstream.new; heard = U.heard upstream.new }) result steps.old steps.new }
    ensures same_table { U.table upstream.new ≡ U.table upstream.old }
{
    let Ok(own) = anchors_copy(alloc, anchors) else {
        return Judgement::unbegun(Error::NoMemory);
    };
    let _ = most_asked(message);
    match Validation::start(alloc, own, *config, message, now) {
        Ok(mut validation) => {
            let answer = begin(alloc, &mut validation, caches, memo, upstream, steps);
            Judgement::new(answer, validation)
        }
        Err(error) => Judgement::unbegun(error),
    }
}

/// A copy of anchors.
fn anchors_copy(alloc: Global, anchors: &TrustAnchors) -> Result<TrustAnchors, NoMemory>
    ensures { IfOk result (λ copy. copy ≡ anchors.now) }
{
    Ok(TrustAnchors::from_vec(anchors.as_slice().to_vec(alloc)?))
}

/// How many questions a message takes at most: its header has two octets for the number of records of each section (RFC 1035 4.1.1).
fn most_asked(message: &Message) -> u32
    ensures enough { (anchors : List records.Record) (most : ℕ) → most_questions anchors most message.now ≤ result }
    ensures few { result ≤ 33422850 }
{
    let header = message.header();
    255 * (u32::from(header.ancount()) + u32::from(header.nscount()))
}

/// The verdict on a message that was begun.
fn begin<V: Verifier, C: Caches<V>, M: Memo<V>, U: Upstream, L: Ledger>(
    alloc: Global,
    validation: &mut Validation<V>,
    caches: &mut C,
    memo: &mut M,
    upstream: &mut U,
    steps: &mut Steps<L>,
) -> Result<Verdict<V>, Error>
    requires begun { (message : List ℕ) × (begun validation.old.anchors (most_of validation.old) message ≡ Ok validation.old.course) × (most_questions validation.old.anchors (most_of validation.old) message ≤ 33422850) }
    ensures checks { (message : List ℕ) → begun validation.old.anchors (most_of validation.old) message ≡ Ok validation.old.course
        → IsJudgingWithin (world_by V.accepts validation.old) (most_of validation.old) message (U.table upstream.old)
        (record { held = C.held caches.old; lasting = C.lasting caches.old; asked = U.asked upstream.old; faults = U.faults upstream.old; heard = U.heard upstream.old })
        (record { held = C.held caches.new; lasting = C.lasting caches.new; asked = U.asked upstream.new; faults = U.faults upstream.new; heard = U.heard upstream.new }) (judgement_at (world_by V.accepts validation.old) validation.new.course result)
        steps.old steps.new }
    ensures same { validation.new ≡ with_course validation.old validation.new.course }
    ensures same_table { U.table upstream.new ≡ U.table upstream.old }
{
    match validation.advance::<L>(alloc, Input::Begin, memo, steps) {
        Ok(step) => finish(alloc, validation, caches, memo, upstream, steps, step),
        Err(error) => Err(error),
    }
}

/// The verdict on a message that has come to this step, and has asked nothing.
fn finish<V: Verifier, C: Caches<V>, M: Memo<V>, U: Upstream, L: Ledger>(
    alloc: Global,
    validation: &mut Validation<V>,
    caches: &mut C,
    memo: &mut M,
    upstream: &mut U,
    steps: &mut Steps<L>,
    step: Step<V>,
) -> Result<Verdict<V>, Error>
    requires unasked { length (asked_in validation.old.course) ≡ 0 }
    requires at { (most : ℕ) × (message : List ℕ) × (before : Outside)
        × IsAt (world_by V.accepts validation.old) most message (U.table upstream.old) before (record { held = C.held caches.old; lasting = C.lasting caches.old; asked = U.asked upstream.old; faults = U.faults upstream.old; heard = U.heard upstream.old }) validation.old.course (step_view step) × (most_questions validation.old.anchors most message ≤ 33422850) }
    ensures checks { (most : ℕ) (message : List ℕ) (before : Outside) (from : ℕ)
        → IsAt (world_by V.accepts validation.old) most message (U.table upstream.old) before (record { held = C.held caches.old; lasting = C.lasting caches.old; asked = U.asked upstream.old; faults = U.faults upstream.old; heard = U.heard upstream.old }) validation.old.course (step_view step)
        → AreFew (world_by V.accepts validation.old) validation.old.course from steps.old
        → IsJudgingWithin (world_by V.accepts validation.old) most message (U.table upstream.old) before
        (record { held = C.held caches.new; lasting = C.lasting caches.new; asked = U.asked upstream.new; faults = U.faults upstream.new; heard = U.heard upstream.new }) (judgement_at (world_by V.accepts validation.old) validation.new.course result)
        from steps.new }
    ensures same { validation.new ≡ with_course validation.old validation.new.course }
    ensures same_table { U.table upstream.new ≡ U.table upstream.old }
{
    let mut questions = 0u32;
    match serve(
        alloc,
        validation,
        caches,
        memo,
        upstream,
        steps,
        &mut questions,
        step,
    ) {
        Ok(last) => Ok(verdict(last, questions)),
        Err(error) => Err(error),
    }
}

/// The verdict of the last step.
fn verdict<V: Verifier>(last: Step<V>, questions: u32) -> Verdict<V>
    requires { ends (step_view last) ≡ true }
    ensures outcome { step_view last ≡ end_with (Ok result.outcome) }
    ensures questions { result.questions ≡ questions }
{
    match last {
        Step::Done(outcome) => Verdict::new(outcome, questions),
        _ => unreachable!(),
    }
}
