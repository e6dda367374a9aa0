//! What a message comes to where all its groups are judged (RFC 4033 5).

ghost use Rattle.std.specs.Prelude.{◌≡◌, [], IfOk};
ghost use Rattle.dsec_course.specs.Advancing.{at_last, going_on};
ghost use Rattle.dsec_course.specs.Course as courses;
ghost use Rattle.dsec_walk.specs.Views.{world_in};
ghost use Rattle.dsec_core.specs.Progress.{ended_by};
ghost use Rattle.dsec_core.specs.Validating.{given_up};
ghost use Rattle.dsec_core.specs.Views.{next_view};

use super::{Course, Waits};
use crate::step::{Next, Step};
use dsec_crypto::Verifier;
use dsec_found::{Error, JudgedGroup};
use dsec_group::Memo;
use dsec_name::NoMemory;
use dsec_outcome::{Outcome, bogus_under, on_questions};
use dsec_walk::Setting;
use std::alloc::Global;

impl<V: Verifier> Course<V> {
    /// The end, where no group is left.
    #[tactic(auto, using(dsec_course::proofs::GroupLaws::going_none))]
    pub(super) fn end_all(
        &mut self,
        alloc: Global,
        setting: &Setting<'_>,
        memo: &mut impl Memo<V>,
    ) -> Result<Next<V>, NoMemory>
        requires { self.old.left ≡ [] }
        ensures exact { IfOk result (λ n. (self.new, next_view n) ≡ going_on (world_in V.accepts setting.now) [] self.old) }
        ensures stays { given_up self.new ≡ given_up self.old }
    {
        let next = self.last(alloc, setting, memo)?;
        self.wait_for(Waits::ForNothing);
        Ok(next)
    }

    /// What the message comes to by its judged groups.
    fn last(
        &self,
        alloc: Global,
        setting: &Setting<'_>,
        memo: &mut impl Memo<V>,
    ) -> Result<Next<V>, NoMemory>
        ensures { IfOk result (λ n. next_view n ≡ courses.end_with (at_last (world_in V.accepts setting.now) self.now)) }
    {
        let (answers, authorities) = self.both();
        match on_questions(
            alloc,
            setting.anchors,
            self.most,
            setting.config,
            self.rcode,
            &self.questions,
            answers,
            authorities,
            memo,
        ) {
            Ok(outcome) => Ok(Next::Says(Step::Done(outcome))),
            Err(Error::NoMemory) => Err(NoMemory),
            Err(_) => Ok(Next::Refuses),
        }
    }
}

/// What the message comes to by a judged group, if that is bogus.
pub(super) fn ended<V: Verifier>(judged: &JudgedGroup<V>) -> Result<Option<Outcome<V>>, NoMemory>
    ensures { IfOk result (λ outcome. outcome ≡ ended_by judged.now.finding) }
{
    match judged.bogus()? {
        Some((cause, links)) => Ok(Some(bogus_under(cause, &links)?)),
        None => Ok(None),
    }
}
