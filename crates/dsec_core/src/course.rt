//! How far judging a message has come (RFC 4035 4.3).

ghost use Rattle.std.specs.Prelude.{◌≡◌, ◌↔◌, ◌≤◌, ◌+◌, ◌*◌, IfOk, IsTrue};
ghost use Rattle.dsec_nodes.specs.SoundSteps.{InputKept};
ghost use Rattle.dsec_course.specs.Advancing.{course_advanced, waiting};
ghost use Rattle.dsec_course.specs.Course as courses;
ghost use Rattle.dsec_walk.specs.Views.{input_view, world_in};
ghost use Rattle.dsec_core.specs.Progress.{IsUnderWayAt};
ghost use Rattle.dsec_core.specs.Validating.{given_up, most_checked_at};
ghost use Rattle.dsec_core.specs.Views.{next_view, waits_view};

mod ending;
mod groups;
mod handing;
mod reading;
mod walks;

use crate::step::{Next, Step};
use dsec_cause::Cause;
use dsec_crypto::Verifier;
use dsec_found::JudgedGroup;
use dsec_group::{Group, Memo, Steps};
use dsec_name::NoMemory;
use dsec_number::Rcode;
use dsec_outcome::Outcome;
use dsec_walk::{Input, Setting, Walk};
use dsec_wire::Question;
pub(crate) use reading::begun;
use std::alloc::Global;
use std::collections::VecDeque;
use std::marker::Model;
use std::mem;
use std::sync::ledger::Ledger;

/// What a message waits for.
#[derive(Drop)]
pub(crate) enum Waits<V: Verifier> {
    /// To begin.
    ToBegin,
    /// To end as bogus, for a cause that was known when it was read.
    ToEnd(Cause),
    /// For a walk to the zone that is to have signed a group.
    ForWalk(Group, Walk<V>),
    /// For nothing.
    ForNothing,
}

/// How far judging a message has come, of which so many aliases are followed. The groups of its answer section, so many of which there
/// are, come before those of its authority section.
#[derive(Drop)]
pub(crate) struct Course<V: Verifier> {
    message: Vec<u8>,
    rcode: Rcode,
    questions: Vec<Question>,
    most: u8,
    answers: usize,
    left: VecDeque<Group>,
    judged: Vec<JudgedGroup<V>>,
    walks: Vec<Walk<V>>,
    waits: Waits<V>,
}

impl<V: Verifier> Model for Course<V> {
    ghost use Rattle.std.specs.Prelude.{◌≡◌, Some};
    ghost use Rattle.dsec_spec.specs.Messages.{rcode_of};
    ghost use Rattle.dsec_course.specs.Course as courses;
    ghost use Rattle.dsec_core.specs.Views.{waits_view};

    ghost Value = { courses.Course };

    ghost view = { λ it. record { message = it.message.items; questions = it.questions.items; most = it.most; answers = it.answers; left = it.left.items; judged = it.judged.items; walks = it.walks.items; waits = waits_view it.waits } };

    ghost invariant = { λ it. rcode_of it.message.items ≡ Some it.rcode };
}

impl<V: Verifier> Course<V> {
    /// The step after what answers the last one.
    pub(crate) fn advanced<L: Ledger>(
        &mut self,
        alloc: Global,
        setting: &Setting<'_>,
        input: Input<V>,
        memo: &mut impl Memo<V>,
        steps: &mut Steps<L>,
    ) -> Result<Next<V>, NoMemory>
        requires under_way { IsUnderWayAt (world_in V.accepts setting.now) self.old.waits }
        requires answers { courses.CourseAnswers self.old.waits (input_view input) }
        ensures exact { IfOk result (λ n. (self.new, next_view n) ≡ course_advanced (world_in V.accepts setting.now) self.old (input_view input)) }
        ensures kept { IfOk result (λ _. InputKept (world_in V.accepts setting.now) (input_view input)) }
        ensures stays { given_up self.new ≡ given_up self.old }
        ensures bound { steps.new ≤ steps.old + most_checked_at (world_in V.accepts setting.now) self.old.waits (input_view input) * (setting.now.config.now.max_bad_signatures + 1) }
    {
        rely_on(setting, &input);
        match &mut self.waits {
            Waits::ToBegin => self.go_on::<L>(alloc, setting, memo, steps),
            Waits::ToEnd(cause) => {
                let outcome = Outcome::bogus(*cause);
                self.wait_for(Waits::ForNothing);
                Ok(Next::Says(Step::Done(outcome)))
            }
            Waits::ForWalk(_, walk) => {
                let step = walk.advance::<L>(alloc, setting, input, memo, steps)?;
                self.stepped::<L>(alloc, setting, step, memo, steps)
            }
            Waits::ForNothing => unreachable!(),
        }
    }

    /// Whether an input answers what is waited for.
    pub(crate) fn awaits(&self, input: &Input<V>) -> bool
        ensures { IsTrue result ↔ courses.CourseAnswers self.now.waits (input_view input.now) }
    {
        match (&self.waits, input) {
            (Waits::ToBegin, Input::Begin) => true,
            (Waits::ToEnd(_), Input::Begin) => true,
            (Waits::ForWalk(_, walk), input) => walk.awaits(input),
            _ => false,
        }
    }

    /// Whether nothing is waited for.
    pub(crate) fn is_done(&self) -> bool
        ensures { IsTrue result ↔ (self.now.waits ≡ courses.for_nothing) }
    {
        matches!(self.waits, Waits::ForNothing)
    }

    /// The judged groups, in order.
    pub(crate) fn judged(&self) -> &[JudgedGroup<V>]
        ensures { result.now ≡ self.now.judged }
    {
        &self.judged
    }

    /// Waits for this from now on.
    fn wait_for(&mut self, waits: Waits<V>)
        ensures { self.new ≡ waiting self.old self.old.left (waits_view waits) }
    {
        drop(mem::replace(&mut self.waits, waits));
    }

    /// Lets go of all that was judged and is still to be.
    pub(crate) fn give_up(&mut self)
        ensures { self.new ≡ given_up self.old }
    {
        self.left.clear();
        self.judged.clear();
        self.walks.clear();
        self.wait_for(Waits::ForNothing);
    }
}

/// What a node's type says of one that is given: it is kept (RFC 4035 4.5).
fn rely_on<V: Verifier>(setting: &Setting<'_>, input: &Input<V>)
    ensures { InputKept (world_in V.accepts setting.now) (input_view input.now) }
{
    if let Input::Node(Some(node)) = input {
        let _ = node.standing();
    }
}
