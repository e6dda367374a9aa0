//! A walk under an island to a name (RFC 4033 2, RFC 4035 5).

ghost use Rattle.std.specs.Prelude.{◌≡◌, ◌↔◌, ◌+◌, ◌-◌, ◌*◌, ◌≤◌, map, length, IfOk, IsTrue, OnErr};
ghost use Rattle.dsec_spec.specs.Names.{IsAtOrBelow, place};
ghost use Rattle.dsec_nodes.specs.InStep.{Goes, InStep};
ghost use Rattle.dsec_nodes.specs.Machine as machine;
ghost use Rattle.dsec_nodes.specs.SoundSteps.{InputKept, Sound};
ghost use Rattle.dsec_nodes.specs.World.{World};
ghost use Rattle.dsec_walk.specs.Checks.{most_checked_by};
ghost use Rattle.dsec_walk.specs.Progress.{IsSameWay};
ghost use Rattle.dsec_walk.specs.UnderWay.{IsUnderWay};
ghost use Rattle.dsec_walk.specs.Views.{input_view, question_view, step_view, world_in};

mod ahead;
mod given;
mod heard;
mod replied;

use crate::reached::Here;
use crate::setting::Setting;
use crate::steps::{Input, Phase, Question, Step};
use dsec_crypto::Verifier;
use dsec_group::{Memo, Steps};
use dsec_name::{Name, NoMemory};
use dsec_node::Node;
use std::alloc::Global;
use std::marker::Model;
use std::sync::Arc;
use std::sync::ledger::Ledger;

/// A walk under an island of security down to a name, a label at a time: it says what it needs, and is given it. It never waits.
#[derive(Drop)]
pub struct Walk<V: Verifier> {
    top: Name,
    target: Name,
    behind: usize,
    here: Option<Here<V>>,
    phase: Phase,
    asked: Vec<Question>,
    got: Vec<Arc<Node<V>>>,
}

impl<V: Verifier> Model for Walk<V> {
    ghost use Rattle.std.specs.Prelude.{map};
    ghost use Rattle.std.specs.Option.{option_map};
    ghost use Rattle.std.specs.Arc.{arc_value};
    ghost use Rattle.dsec_spec.specs.Names.{place};
    ghost use Rattle.dsec_nodes.specs.Machine as machine;
    ghost use Rattle.dsec_walk.specs.Views.{here_view, phase_view, question_view};

    ghost Value = { machine.Walking };

    ghost view = { λ it. record { top = place it.top; target = place it.target; behind = it.behind; reached = option_map here_view it.here; phase = phase_view it.phase; asked = map question_view it.asked.items; got = map (λ n. arc_value n) it.got.items } };
}

impl<V: Verifier> Walk<V> {
    /// A walk that hasn't begun, under the island at `top` to `target`.
    pub fn start(alloc: Global, top: Name, target: Name) -> Walk<V>
        requires above { IsAtOrBelow (place target) (place top) }
        ensures started { result ≡ machine.started (place top) (place target) }
        ensures in_step { (w : World) → InStep w result }
        ensures under_way { (w : World) → IsUnderWay w result }
    {
        Walk {
            top,
            target,
            behind: 0,
            here: None,
            phase: Phase::Begins,
            asked: Vec::new(alloc),
            got: Vec::new(alloc),
        }
    }

    /// The questions that were asked, with their replies, the first one first.
    pub fn asked(&self) -> &[Question]
        ensures { map question_view result.now ≡ self.now.asked }
    {
        &self.asked
    }

    /// Whether an input answers the pending step.
    pub fn awaits(&self, input: &Input<V>) -> bool
        ensures { IsTrue result ↔ machine.Answers self.now.phase (input_view input.now) }
    {
        match (&self.phase, input) {
            (Phase::Begins, Input::Begin) => true,
            (Phase::Gets, Input::Node(_)) => true,
            (Phase::AsksFirst, Input::Reply(_)) => true,
            (Phase::AsksKeys(_), Input::Reply(_)) => true,
            (Phase::Puts, Input::Stored) => true,
            _ => false,
        }
    }

    /// The step after what answers the last one. A walk is taken on in one setting from its start to its end. Where there was no
    /// memory it has ended, without a node; what it had asked before is still told.
    pub fn advance<L: Ledger>(
        &mut self,
        alloc: Global,
        setting: &Setting<'_>,
        input: Input<V>,
        memo: &mut impl Memo<V>,
        steps: &mut Steps<L>,
    ) -> Result<Step<V>, NoMemory>
        requires under_way { IsUnderWay (world_in V.accepts setting.now) self.old }
        requires answers { machine.Answers self.old.phase (input_view input) }
        ensures exact { IfOk result (λ s. (self.new, step_view s) ≡ machine.advanced (world_in V.accepts setting.now) self.old (input_view input)) }
        ensures agrees { InStep (world_in V.accepts setting.now) self.old → IfOk result (λ s. Goes (world_in V.accepts setting.now) (self.new, step_view s)) }
        ensures sound { IfOk result (λ s. Sound (world_in V.accepts setting.now) (self.new, step_view s)) }
        ensures under_way { IfOk result (λ _. IsUnderWay (world_in V.accepts setting.now) self.new) }
        ensures few { IfOk result (λ _. length self.new.asked ≤ 1 + 2 * (length self.new.target - length self.new.top)) }
        ensures err { OnErr result (self.new.phase ≡ machine.ends) }
        ensures lost { OnErr result (IsSameWay self.old self.new) }
        ensures bound { steps.new ≤ steps.old + most_checked_by (input_view input) self.old.phase self.old.reached * (setting.now.config.now.max_bad_signatures + 1) }
    {
        match self.stepped::<L>(alloc, setting, input, memo, steps) {
            Ok(step) => Ok(step),
            Err(NoMemory) => {
                self.phase = Phase::Ends;
                Err(NoMemory)
            }
        }
    }

    /// The same, exactly.
    fn stepped<L: Ledger>(
        &mut self,
        alloc: Global,
        setting: &Setting<'_>,
        input: Input<V>,
        memo: &mut impl Memo<V>,
        steps: &mut Steps<L>,
    ) -> Result<Step<V>, NoMemory>
        requires under_way { IsUnderWay (world_in V.accepts setting.now) self.old }
        requires answers { machine.Answers self.old.phase (input_view input) }
        ensures exact { IfOk result (λ s. (self.new, step_view s) ≡ machine.advanced (world_in V.accepts setting.now) self.old (input_view input)) }
        ensures kept { IfOk result (λ _. InputKept (world_in V.accepts setting.now) (input_view input)) }
        ensures lost { OnErr result (IsSameWay self.old self.new) }
        ensures bound { steps.new ≤ steps.old + most_checked_by (input_view input) self.old.phase self.old.reached * (setting.now.config.now.max_bad_signatures + 1) }
    {
        match input {
            Input::Begin => self.ahead(alloc),
            Input::Node(node) => self.given(alloc, setting, node),
            Input::Stored => self.ahead(alloc),
            Input::Reply(reply) => self.replied::<L>(alloc, setting, reply, memo, steps),
        }
    }
}
