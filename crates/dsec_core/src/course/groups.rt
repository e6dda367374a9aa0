//! The groups of a message one after the other, to the first that needs a walk (RFC 4035 4.3).

ghost use Rattle.std.specs.Prelude.{◌≡◌, ◌≤◌, IfOk};
ghost use Rattle.dsec_course.specs.Advancing.{going_on};
ghost use Rattle.dsec_walk.specs.Views.{world_in};
ghost use Rattle.dsec_core.specs.Progress.{Passes};
ghost use Rattle.dsec_core.specs.Validating.{given_up};
ghost use Rattle.dsec_core.specs.Views.{next_view};

use super::Course;
use crate::begun::{Way, way_of};
use crate::step::Next;
use dsec_crypto::Verifier;
use dsec_group::{Group, Memo, Steps};
use dsec_name::NoMemory;
use dsec_walk::Setting;
use std::alloc::Global;
use std::sync::ledger::Ledger;

impl<V: Verifier> Course<V> {
    /// Judging goes on with the groups that are left.
    pub(super) fn go_on<L: Ledger>(
        &mut self,
        alloc: Global,
        setting: &Setting<'_>,
        memo: &mut impl Memo<V>,
        steps: &mut Steps<L>,
    ) -> Result<Next<V>, NoMemory>
        ensures exact { IfOk result (λ n. (self.new, next_view n) ≡ going_on (world_in V.accepts setting.now) self.old.left self.old) }
        ensures stays { given_up self.new ≡ given_up self.old }
        ensures bound { steps.new ≤ steps.old }
    {
        while let Some(group) = self.left.pop_front() {
            match self.passed::<L>(alloc, setting, group, memo, steps)? {
                Some(next) => return Ok(next),
                None => {}
            }
        }
        self.end_all(alloc, setting, memo)
    }

    /// The next group is judged at once, or a walk for it sets out.
    fn passed<L: Ledger>(
        &mut self,
        alloc: Global,
        setting: &Setting<'_>,
        group: Group,
        memo: &mut impl Memo<V>,
        steps: &mut Steps<L>,
    ) -> Result<Option<Next<V>>, NoMemory>
        ensures passes { IfOk result (λ next. Passes (world_in V.accepts setting.now) group self.old self.new next) }
        ensures stays { given_up self.new ≡ given_up self.old }
        ensures bound { steps.new ≤ steps.old }
    {
        match way_of(alloc, setting, group)? {
            Way::AtOnce(judged) => {
                self.judged.push(judged)?;
                Ok(None)
            }
            Way::ByWalk(group, top, zone) => {
                let next = self.set_out::<L>(alloc, setting, group, top, zone, memo, steps)?;
                Ok(Some(next))
            }
        }
    }
}
