//! The next name of a walk, and the steps that need nothing.

ghost use Rattle.std.specs.Prelude.{◌≡◌, ◌+◌, ◌≤◌, IfOk, OnErr, nat_le, length};
ghost use Rattle.dsec_spec.specs.Names.{place};
ghost use Rattle.dsec_nodes.specs.Machine as machine;
ghost use Rattle.dsec_walk.specs.Progress.{IsSameWay};
ghost use Rattle.dsec_walk.specs.UnderWay.{Fits, FitsFirst};
ghost use Rattle.dsec_walk.specs.Views.{step_view};

use super::Walk;
use crate::names::{front, labels};
use crate::reached::goes_on;
use crate::steps::{Phase, Step};
use dsec_crypto::Verifier;
use dsec_name::{Name, NoMemory};
use dsec_number::Rtype;
use std::alloc::Global;
use std::sync::Arc;

impl<V: Verifier> Walk<V> {
    /// How many labels the next name has.
    fn depth(&self) -> usize
        requires { Fits self.now }
        ensures { result ≡ length self.now.top + self.now.behind }
    {
        let (top, target) = (labels(&self.top), labels(&self.target));
        prove!(self.behind <= target - top);
        top + self.behind
    }

    /// The next name.
    pub(super) fn name_at(&self, alloc: Global) -> Result<Name, NoMemory>
        requires { Fits self.now }
        ensures { IfOk result (λ name. place name ≡ machine.name_at self.now) }
    {
        front(alloc, &self.target, self.depth())
    }

    /// How many names are behind a walk with one name more.
    pub(super) fn one_more(&self) -> usize
        requires { Fits self.now }
        ensures { result ≡ self.now.behind + 1 }
    {
        let most = self.target.label_count();
        prove!(self.behind < most);
        self.behind + 1
    }

    /// Whether a name is ahead, by the number of labels.
    fn has_more(&self) -> bool
        ensures { result ≡ nat_le (length self.now.top + self.now.behind) (length self.now.target) }
    {
        let (top, target) = (labels(&self.top), labels(&self.target));
        top <= target && self.behind <= target - top
    }

    /// The next step from what is reached.
    pub(super) fn ahead(&mut self, alloc: Global) -> Result<Step<V>, NoMemory>
        requires { FitsFirst self.old self.old.reached }
        ensures step { IfOk result (λ s. (self.new, step_view s) ≡ machine.ahead self.old) }
        ensures lost { OnErr result (IsSameWay self.old self.new) }
    {
        match &self.here {
            Some(here) => {
                if !(goes_on(&here.node) && self.has_more()) {
                    let node = Arc::try_clone(&here.node)?;
                    self.phase = Phase::Ends;
                    return Ok(Step::Done(node));
                }
            }
            None => {}
        }
        let name = self.name_at(alloc)?;
        self.phase = Phase::Gets;
        Ok(Step::NodeGet(name))
    }

    /// The type that is asked for first.
    fn first_type(&self) -> Rtype
        ensures { result ≡ machine.type_at self.now.reached }
    {
        match &self.here {
            Some(_) => Rtype::DS,
            None => Rtype::DNSKEY,
        }
    }

    /// The question for the next name.
    pub(super) fn asking(&mut self, alloc: Global) -> Result<Step<V>, NoMemory>
        requires { Fits self.old }
        ensures step { IfOk result (λ s. (self.new, step_view s) ≡ machine.asking self.old) }
        ensures lost { OnErr result (IsSameWay self.old self.new) }
    {
        let rtype = self.first_type();
        let name = self.name_at(alloc)?;
        self.phase = Phase::AsksFirst;
        Ok(Step::Ask(name, rtype))
    }
}
