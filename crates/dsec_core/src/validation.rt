//! A message judged a step at a time (RFC 4035 4.3, 5).

ghost use Rattle.std.specs.Prelude.{◌≡◌, ◌↔◌, ◌<◌, ◌≤◌, ◌+◌, ◌*◌, IfOk, IsTrue, OnErr};
ghost use Rattle.std.specs.List.{AllByRecursion};
ghost use Rattle.std.specs.Option.{option_map};
ghost use Rattle.dsec_spec.specs.Reading.{Gives};
ghost use Rattle.dsec_course.specs.Advancing.{begun as begun_of, course_advanced};
ghost use Rattle.dsec_course.specs.Agreeing.{CourseGoes, CourseInStep};
ghost use Rattle.dsec_course.specs.Course as courses;
ghost use Rattle.dsec_course.specs.Ending.{steps_left};
ghost use Rattle.dsec_course.specs.Justified.{IsFound, SoundCourse, SoundGoing};
ghost use Rattle.dsec_cut.specs.Cuts.{to_rewrite};
ghost use Rattle.dsec_found.specs.Errors.{wants_memory};
ghost use Rattle.dsec_nodes.specs.World.{on_circle};
ghost use Rattle.dsec_walk.specs.Views.{input_view};
ghost use Rattle.dsec_core.specs.Validating.{AdvancesTo, begun_as, most_checked_at, most_of, with_course, world_by};
ghost use Rattle.dsec_core.specs.Views.{step_view};

use crate::course::{Course, begun};
use crate::step::{Next, Step};
use dsec_anchors::TrustAnchors;
use dsec_crypto::Verifier;
use dsec_found::{Error, JudgedGroup};
use dsec_group::{Memo, Steps};
use dsec_message::Message;
use dsec_name::NoMemory;
use dsec_node::Config;
use dsec_walk::{Input, Setting};
use std::alloc::Global;
use std::marker::Model;
use std::sync::ledger::Ledger;

/// A message that is judged a step at a time: it says what it needs, and is given it. It never waits.
#[derive(Drop)]
pub struct Validation<V: Verifier> {
    anchors: TrustAnchors,
    config: Config,
    moment: u64,
    course: Course<V>,
}

impl<V: Verifier> Model for Validation<V> {
    ghost use Rattle.dsec_core.specs.Validating.{IsSoundBy, Validating};

    ghost Value = { Validating };

    ghost view = { λ it. record { anchors = it.anchors; config = it.config; moment = it.moment; course = it.course } };

    ghost invariant = { λ it. IsSoundBy V.accepts (record { anchors = it.anchors; config = it.config; moment = it.moment; course = it.course }) };
}

impl<V: Verifier> Validation<V> {
    /// A message that is to be judged at a moment, in seconds since 1970, from these anchors. Nothing is asked before it is read.
    pub fn start(
        alloc: Global,
        anchors: TrustAnchors,
        config: Config,
        message: &Message,
        now: u64,
    ) -> Result<Validation<V>, Error>
        ensures exact { Gives wants_memory (λ it. it) result (begun_as anchors config now (begun_of anchors config.max_cname_dname message.now)) }
        ensures in_step { IfOk result (λ it. CourseInStep (world_by V.accepts it) (most_of it) message.now it.course) }
        ensures sound { IfOk result (λ it. SoundCourse (world_by V.accepts it) (most_of it) message.now it.course) }
    {
        let course = begun(alloc, anchors.as_slice(), config.max_cname_dname(), message)?;
        Ok(Validation {
            anchors,
            config,
            moment: now,
            course,
        })
    }

    /// The step after what answers the last one. After `Step::Done` and after every error nothing is waited for.
    pub fn advance<L: Ledger>(
        &mut self,
        alloc: Global,
        input: Input<V>,
        memo: &mut impl Memo<V>,
        steps: &mut Steps<L>,
    ) -> Result<Step<V>, Error>
        requires answers { courses.CourseAnswers self.old.course.waits (input_view input) }
        ensures exact { AdvancesTo (course_advanced (world_by V.accepts self.old) self.old.course (input_view input)) self.old.course self.new.course result }
        ensures agrees { CourseInStep (world_by V.accepts self.old) (most_of self.old) self.old.course.message self.old.course
            → IfOk result (λ step. CourseGoes (world_by V.accepts self.old) (most_of self.old) self.old.course.message (self.new.course, step_view step)) }
        ensures sound { IfOk result (λ step. SoundGoing (world_by V.accepts self.old) (most_of self.old) self.old.course.message (self.new.course, step_view step)) }
        ensures same { self.new ≡ with_course self.old self.new.course }
        ensures awaits { IfOk result (λ step. courses.Awaits (step_view step) self.new.course.waits) }
        ensures err { OnErr result (self.new.course.waits ≡ courses.for_nothing) }
        ensures nearer { steps_left (world_by V.accepts self.old) self.new.course < steps_left (world_by V.accepts self.old) self.old.course }
        ensures bound { steps.new ≤ steps.old + most_checked_at (world_by V.accepts self.old) self.old.course.waits (input_view input) * (self.old.config.max_bad_signatures + 1) }
    {
        let setting = Setting {
            anchors: self.anchors.as_slice(),
            config: &self.config,
            moment: self.moment,
        };
        match self
            .course
            .advanced::<L>(alloc, &setting, input, memo, steps)
        {
            Ok(Next::Says(step)) => Ok(step),
            Ok(Next::Refuses) => Err(Error::FormError),
            Err(NoMemory) => {
                self.course.give_up();
                Err(Error::NoMemory)
            }
        }
    }

    /// Whether an input answers what is waited for.
    pub fn awaits(&self, input: &Input<V>) -> bool
        ensures { IsTrue result ↔ courses.CourseAnswers self.now.course.waits (input_view input.now) }
    {
        self.course.awaits(input)
    }

    /// Whether nothing is waited for: after `Step::Done`, and after every error.
    pub fn is_done(&self) -> bool
        ensures done { IsTrue result ↔ (self.now.course.waits ≡ courses.for_nothing) }
        ensures sound { SoundCourse (world_by V.accepts self.now) (most_of self.now) self.now.course.message self.now.course }
    {
        self.course.is_done()
    }

    /// The groups that are judged, in order. Where the message has ended by a bogus group, that is the last one; after want of memory
    /// there are none.
    pub fn judged(&self) -> &[JudgedGroup<V>]
        ensures judged { result.now ≡ self.now.course.judged }
        ensures found { AllByRecursion (IsFound (world_by V.accepts self.now)) result.now }
    {
        self.course.judged()
    }

    /// The judged groups of the answer section and of the authority section, where the message is rewritten by them: all its groups are
    /// judged, none is bogus, and TTLs are cut or there were duplicates. They outlive the end.
    pub fn groups(&self) -> Option<(&[JudgedGroup<V>], &[JudgedGroup<V>])>
        ensures { option_map (λ both. (both.0.now, both.1.now)) result ≡ to_rewrite (on_circle self.now.moment) self.now.course }
    {
        self.course.handed_on(self.moment)
    }
}
