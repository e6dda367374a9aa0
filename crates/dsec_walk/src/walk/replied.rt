//! Replies to a walk's questions, which it keeps.

ghost use Rattle.std.specs.Prelude.{◌≡◌, ◌+◌, ◌*◌, ◌≤◌, IfOk, OnErr};
ghost use Rattle.dsec_nodes.specs.Machine as machine;
ghost use Rattle.dsec_walk.specs.Checks.{checked_reply};
ghost use Rattle.dsec_walk.specs.Progress.{IsSameWay, pended, with_asked};
ghost use Rattle.dsec_walk.specs.UnderWay.{CanHear, Fits};
ghost use Rattle.dsec_walk.specs.Views.{step_view, world_in};

use super::Walk;
use crate::reached::{Next, arrived, is_bogus};
use crate::setting::Setting;
use crate::steps::{Phase, Question, Step};
use dsec_crypto::Verifier;
use dsec_group::{Memo, Steps};
use dsec_name::{NoMemory, Octets};
use dsec_node::{Node, Pending};
use dsec_number::Rtype;
use std::alloc::Global;
use std::sync::Arc;
use std::sync::ledger::Ledger;

impl<V: Verifier> Walk<V> {
    /// The step after a reply.
    pub(super) fn replied<L: Ledger>(
        &mut self,
        alloc: Global,
        setting: &Setting<'_>,
        reply: Option<Octets>,
        memo: &mut impl Memo<V>,
        steps: &mut Steps<L>,
    ) -> Result<Step<V>, NoMemory>
        requires { CanHear (world_in V.accepts setting.now) self.old }
        ensures step { IfOk result (λ s. (self.new, step_view s) ≡ machine.replied (world_in V.accepts setting.now) self.old self.old.phase reply) }
        ensures lost { OnErr result (IsSameWay self.old self.new) }
        ensures bound { steps.new ≤ steps.old + checked_reply self.old.phase self.old.reached reply * (setting.now.config.now.max_bad_signatures + 1) }
    {
        match self.next_by::<L>(alloc, setting, &reply, memo, steps)? {
            Next::Made(rtype, node) => self.making(alloc, rtype, reply, node),
            Next::Asks(pending) => self.pending(alloc, reply, pending),
        }
    }

    /// A node that was made is reached. It is to be kept, but with a bogus one the walk ends.
    fn making(
        &mut self,
        alloc: Global,
        rtype: Rtype,
        reply: Option<Octets>,
        node: Node<V>,
    ) -> Result<Step<V>, NoMemory>
        requires { Fits self.old }
        ensures step { IfOk result (λ s. (self.new, step_view s) ≡ machine.making self.old (machine.heard self.old rtype reply) node) }
        ensures lost { OnErr result (IsSameWay self.old self.new) }
    {
        let is_bogus = is_bogus(node.standing());
        let node = Arc::new(alloc, node)?;
        let here = arrived(&self.here, &node)?;
        let put = self.name_at(alloc)?;
        let behind = self.one_more();
        self.hear(alloc, rtype, reply)?;
        self.here = Some(here);
        self.behind = behind;
        if is_bogus {
            self.phase = Phase::Ends;
            return Ok(Step::Done(node));
        }
        self.phase = Phase::Puts;
        Ok(Step::NodePut(put, node))
    }

    /// The DNSKEY set is asked for, which a DS set is to admit.
    fn pending(
        &mut self,
        alloc: Global,
        reply: Option<Octets>,
        pending: Pending,
    ) -> Result<Step<V>, NoMemory>
        requires { Fits self.old }
        ensures step { IfOk result (λ s. (self.new, step_view s) ≡ pended self.old reply pending) }
        ensures lost { OnErr result (IsSameWay self.old self.new) }
    {
        let next = self.name_at(alloc)?;
        self.hear(alloc, Rtype::DS, reply)?;
        self.phase = Phase::AsksKeys(pending);
        Ok(Step::Ask(next, Rtype::DNSKEY))
    }

    /// A reply is kept, with the question for this type at the next name.
    fn hear(&mut self, alloc: Global, rtype: Rtype, reply: Option<Octets>) -> Result<(), NoMemory>
        requires { Fits self.old }
        ensures ok { IfOk result (λ _. self.new ≡ with_asked self.old (machine.heard self.old rtype reply)) }
        ensures lost { OnErr result (IsSameWay self.old self.new) }
    {
        let name = self.name_at(alloc)?;
        self.asked.push(Question { name, rtype, reply })?;
        Ok(())
    }
}
