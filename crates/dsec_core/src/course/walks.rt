//! Steps of the walk that a message waits for, and the group judged by the node that it comes to (RFC 4035 5).

ghost use Rattle.std.specs.Prelude.{◌≡◌, ◌≤◌, ◌+◌, ◌*◌, IfOk, None};
ghost use Rattle.std.specs.Arc.{arc_value};
ghost use Rattle.dsec_spec.specs.Names.{IsAtOrBelow, place};
ghost use Rattle.dsec_nodes.specs.Judging.{by_node};
ghost use Rattle.dsec_nodes.specs.Machine as machine;
ghost use Rattle.dsec_course.specs.Advancing.{setting_out};
ghost use Rattle.dsec_walk.specs.UnderWay.{IsUnderWay};
ghost use Rattle.dsec_walk.specs.Views as walks;
ghost use Rattle.dsec_walk.specs.Views.{world_in};
ghost use Rattle.dsec_core.specs.Progress.{IsForWalk, arrived_at, judging, said_of};
ghost use Rattle.dsec_core.specs.Validating.{given_up, judged_by};
ghost use Rattle.dsec_core.specs.Views.{next_view};

use super::ending::ended;
use super::{Course, Waits};
use crate::step::{Next, Step};
use dsec_crypto::Verifier;
use dsec_found::{JudgedGroup, judged_by_node};
use dsec_group::{Group, Memo, Steps};
use dsec_name::{Name, NoMemory};
use dsec_node::Node;
use dsec_walk::{Input, Setting, Step as WalkStep, Walk};
use std::alloc::Global;
use std::mem;
use std::sync::Arc;
use std::sync::ledger::Ledger;

impl<V: Verifier> Course<V> {
    /// A walk from an island to the zone that is to have signed a group sets out.
    pub(super) fn set_out<L: Ledger>(
        &mut self,
        alloc: Global,
        setting: &Setting<'_>,
        group: Group,
        top: Name,
        zone: Name,
        memo: &mut impl Memo<V>,
        steps: &mut Steps<L>,
    ) -> Result<Next<V>, NoMemory>
        requires { IsAtOrBelow (place zone) (place top) }
        ensures out { IfOk result (λ n. (self.new, next_view n) ≡ setting_out self.old group self.old.left (machine.started (place top) (place zone))) }
        ensures stays { given_up self.new ≡ given_up self.old }
        ensures bound { steps.new ≤ steps.old }
    {
        let mut walk = Walk::start(alloc, top, zone);
        let name = first_name::<V, L>(alloc, setting, &mut walk, memo, steps)?;
        self.wait_for(Waits::ForWalk(group, walk));
        Ok(Next::Says(Step::NodeGet(name)))
    }

    /// A step of the walk that is waited for is said; or that has ended, and its group is judged.
    pub(super) fn stepped<L: Ledger>(
        &mut self,
        alloc: Global,
        setting: &Setting<'_>,
        step: WalkStep<V>,
        memo: &mut impl Memo<V>,
        steps: &mut Steps<L>,
    ) -> Result<Next<V>, NoMemory>
        requires { IsForWalk self.old.waits }
        ensures step { IfOk result (λ n. (self.new, next_view n) ≡ said_of (world_in V.accepts setting.now) self.old (walks.step_view step)) }
        ensures stays { given_up self.new ≡ given_up self.old }
        ensures bound { steps.new ≤ steps.old + judged_by (walks.step_view step) * (setting.now.config.now.max_bad_signatures + 1) }
    {
        match step {
            WalkStep::NodeGet(name) => Ok(Next::Says(Step::NodeGet(name))),
            WalkStep::NodePut(name, node) => Ok(Next::Says(Step::NodePut(name, node))),
            WalkStep::Ask(name, rtype) => Ok(Next::Says(Step::Ask(name, rtype))),
            WalkStep::Done(node) => self.arrived::<L>(alloc, setting, node, memo, steps),
        }
    }

    /// The walk that is waited for has come to a node.
    fn arrived<L: Ledger>(
        &mut self,
        alloc: Global,
        setting: &Setting<'_>,
        node: Arc<Node<V>>,
        memo: &mut impl Memo<V>,
        steps: &mut Steps<L>,
    ) -> Result<Next<V>, NoMemory>
        requires { IsForWalk self.old.waits }
        ensures step { IfOk result (λ n. (self.new, next_view n) ≡ arrived_at (world_in V.accepts setting.now) self.old (arc_value node) self.old.waits) }
        ensures stays { given_up self.new ≡ given_up self.old }
        ensures bound { steps.new ≤ steps.old + (setting.now.config.now.max_bad_signatures + 1) }
    {
        self.walks.reserve(1)?;
        match mem::replace(&mut self.waits, Waits::ForNothing) {
            Waits::ForWalk(group, walk) => {
                self.walks.push_reserved(walk);
                self.found::<L>(alloc, setting, group, node, memo, steps)
            }
            _ => unreachable!(),
        }
    }

    /// A group is judged by the node that its walk has come to.
    fn found<L: Ledger>(
        &mut self,
        alloc: Global,
        setting: &Setting<'_>,
        group: Group,
        node: Arc<Node<V>>,
        memo: &mut impl Memo<V>,
        steps: &mut Steps<L>,
    ) -> Result<Next<V>, NoMemory>
        ensures step { IfOk result (λ n. (self.new, next_view n) ≡ judging (world_in V.accepts setting.now) self.old (by_node (world_in V.accepts setting.now) group (arc_value node))) }
        ensures stays { given_up self.new ≡ given_up self.old }
        ensures bound { steps.new ≤ steps.old + (setting.now.config.now.max_bad_signatures + 1) }
    {
        let (config, moment) = (setting.config, setting.moment);
        let judged = judged_by_node::<V, L>(alloc, config, moment, group, node, memo, steps)?;
        self.go_on_behind::<L>(alloc, setting, judged, memo, steps)
    }

    /// Judging goes on behind a judged group. A bogus one ends the message.
    fn go_on_behind<L: Ledger>(
        &mut self,
        alloc: Global,
        setting: &Setting<'_>,
        judged: JudgedGroup<V>,
        memo: &mut impl Memo<V>,
        steps: &mut Steps<L>,
    ) -> Result<Next<V>, NoMemory>
        ensures step { IfOk result (λ n. (self.new, next_view n) ≡ judging (world_in V.accepts setting.now) self.old judged) }
        ensures stays { given_up self.new ≡ given_up self.old }
        ensures bound { steps.new ≤ steps.old }
    {
        let outcome = ended(&judged)?;
        self.judged.push(judged)?;
        match outcome {
            Some(outcome) => {
                self.wait_for(Waits::ForNothing);
                Ok(Next::Says(Step::Done(outcome)))
            }
            None => self.go_on::<L>(alloc, setting, memo, steps),
        }
    }
}

/// The name whose node a walk that sets out asks for first.
fn first_name<V: Verifier, L: Ledger>(
    alloc: Global,
    setting: &Setting<'_>,
    walk: &mut Walk<V>,
    memo: &mut impl Memo<V>,
    steps: &mut Steps<L>,
) -> Result<Name, NoMemory>
    requires begins { walk.old.phase ≡ machine.begins }
    requires ahead { walk.old.reached ≡ None }
    requires under_way { IsUnderWay (world_in V.accepts setting.now) walk.old }
    ensures walk { IfOk result (λ _. walk.new ≡ machine.in_phase walk.old machine.gets) }
    ensures first { IfOk result (λ name. place name ≡ machine.name_at walk.old) }
    ensures bound { steps.new ≤ steps.old }
{
    match walk.advance::<L>(alloc, setting, Input::Begin, memo, steps)? {
        WalkStep::NodeGet(name) => Ok(name),
        _ => unreachable!(),
    }
}
