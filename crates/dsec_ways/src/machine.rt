//! A message judged by hand: the caller's own loop answers its steps, from caches of nodes and an upstream.

ghost use Rattle.std.specs.Prelude.{◌≡◌, false, IfSome};
ghost use Rattle.dsec_core.specs.Views.{step_view};
ghost use Rattle.dsec_context.specs.Turns.{ends};

use crate::scene::{Messages, message_of};
use crate::told::Told;
use crate::turning::Turning;
use dsec_anchors::TrustAnchors;
use dsec_context::{Error, Input, Outcome, Step, Validation, answer_to};
use dsec_crypto::StandIn;
use dsec_group::{NoMemo, Steps};
use dsec_node::{Caches, Config};
use dsec_outside::Upstream;
use dsec_script::Item;
use std::alloc::Global;
use std::sync::ledger::Ledger;

/// A message that is judged by hand.
#[derive(Drop)]
pub(crate) struct Machine {
    index: usize,
    validation: Validation<StandIn>,
    next: Option<Input<StandIn>>,
    questions: u64,
    told: Option<Told>,
}

/// A message at its moment, which is begun.
fn begun(alloc: Global, messages: &Messages, item: &Item) -> Result<Validation<StandIn>, Error> {
    let message = message_of(alloc, item)?;
    match messages.anchors.as_slice().to_vec(alloc) {
        Ok(anchors) => Validation::start(
            alloc,
            TrustAnchors::from_vec(anchors),
            Config::new(),
            &message,
            item.seconds,
        ),
        Err(_) => Err(Error::NoMemory),
    }
}

impl Turning for Machine {
    fn start(
        alloc: Global,
        messages: &Messages,
        index: usize,
        item: &Item,
    ) -> Result<Machine, Error> {
        Ok(Machine {
            index,
            validation: begun(alloc, messages, item)?,
            next: Some(Input::Begin),
            questions: 0,
            told: None,
        })
    }

    fn turn<C: Caches<StandIn>, U: Upstream, L: Ledger>(
        &mut self,
        alloc: Global,
        caches: &mut C,
        upstream: &mut U,
        steps: &mut Steps<L>,
    ) {
        if let Some(step) = self.step(alloc, steps) {
            self.next = answer_to(alloc, caches, upstream, step).ok();
        }
    }

    fn told(&self) -> Option<Told> {
        self.told
    }
}

impl Machine {
    /// The next step, where there is one that is to be answered.
    fn step<L: Ledger>(&mut self, alloc: Global, steps: &mut Steps<L>) -> Option<Step<StandIn>>
        ensures { IfSome result (λ step. ends (step_view step) ≡ false) }
    {
        let input = self.next.take()?;
        if !self.validation.awaits(&input) {
            return None;
        }
        let step = self
            .validation
            .advance::<L>(alloc, input, &mut NoMemo, steps)
            .ok()?;
        self.noted(step)
    }

    /// The same step, where it is not the end; noted is what the message comes to, or that a question more is asked.
    fn noted(&mut self, step: Step<StandIn>) -> Option<Step<StandIn>>
        ensures { IfSome result (λ step. ends (step_view step) ≡ false) }
    {
        match step {
            Step::Done(outcome) => {
                self.told = Some(self.come_to(&outcome));
                drop(outcome);
                None
            }
            Step::Ask(name, rtype) => {
                self.questions = self.questions.saturating_add(1);
                Some(Step::Ask(name, rtype))
            }
            step @ (Step::NodeGet(_) | Step::NodePut(_, _)) => Some(step),
        }
    }

    /// What the message comes to.
    fn come_to(&self, outcome: &Outcome<StandIn>) -> Told {
        Told {
            index: self.index,
            state: outcome.state(),
            cause: outcome.cause(),
            number: self.questions,
        }
    }
}
