//! Nodes that a walk is given (RFC 4035 4.5).

ghost use Rattle.std.specs.Prelude.{◌≡◌, IfOk, OnErr, Some};
ghost use Rattle.std.specs.Arc.{arc_value};
ghost use Rattle.std.specs.Option.{option_map};
ghost use Rattle.dsec_spec.specs.Names.{place};
ghost use Rattle.dsec_node.specs.Views.{standing_view};
ghost use Rattle.dsec_nodes.specs.Machine as machine;
ghost use Rattle.dsec_nodes.specs.Nodes.{Kept};
ghost use Rattle.dsec_nodes.specs.SoundSteps.{InputKept};
ghost use Rattle.dsec_nodes.specs.Taking as taking;
ghost use Rattle.dsec_nodes.specs.Walk as walks;
ghost use Rattle.dsec_walk.specs.Progress.{IsSameWay};
ghost use Rattle.dsec_walk.specs.UnderWay.{Fits};
ghost use Rattle.dsec_walk.specs.Views.{step_view, world_in};

use super::Walk;
use crate::reached::arrived;
use crate::setting::Setting;
use crate::steps::Step;
use dsec_crypto::Verifier;
use dsec_name::{Name, NoMemory};
use dsec_node::{Node, Standing};
use std::alloc::Global;
use std::sync::Arc;

impl<V: Verifier> Walk<V> {
    /// The step after a node that was kept, or none.
    pub(super) fn given(
        &mut self,
        alloc: Global,
        setting: &Setting<'_>,
        node: Option<Arc<Node<V>>>,
    ) -> Result<Step<V>, NoMemory>
        requires { Fits self.old }
        ensures step { IfOk result (λ s. (self.new, step_view s) ≡ machine.given (world_in V.accepts setting.now) self.old (option_map (λ n. arc_value n) node)) }
        ensures kept { IfOk result (λ _. InputKept (world_in V.accepts setting.now) (machine.node (option_map (λ n. arc_value n) node))) }
        ensures lost { OnErr result (IsSameWay self.old self.new) }
    {
        match node {
            Some(node) => self.given_node(alloc, setting, node),
            None => self.asking(alloc),
        }
    }

    /// The step after a node that was kept.
    fn given_node(
        &mut self,
        alloc: Global,
        setting: &Setting<'_>,
        node: Arc<Node<V>>,
    ) -> Result<Step<V>, NoMemory>
        requires { Fits self.old }
        ensures step { IfOk result (λ s. (self.new, step_view s) ≡ machine.given (world_in V.accepts setting.now) self.old (Some (arc_value node))) }
        ensures kept { IfOk result (λ _. Kept V.accepts (arc_value node)) }
        ensures lost { OnErr result (IsSameWay self.old self.new) }
    {
        let name = self.name_at(alloc)?;
        let may_stand = self.may_stand(node.standing());
        if !(self.counts(setting, &name, &node) && may_stand) {
            return self.asking(alloc);
        }
        self.reach_got(node)?;
        self.ahead(alloc)
    }

    /// Whether a node that was kept counts at a name under the island.
    fn counts(&self, setting: &Setting<'_>, name: &Name, node: &Node<V>) -> bool
        ensures { result ≡ taking.counts (world_in V.accepts setting.now) self.now.top (place name.now) node.now }
    {
        let bounds = setting.config.bounds();
        node.counts(&self.top, name, setting.anchors, &bounds, setting.moment)
    }

    /// Whether a walk can stand on a node: it doesn't begin at one within a zone, whose zone it doesn't know.
    fn may_stand(&self, standing: &Standing) -> bool
        ensures { result ≡ walks.may_stand self.now.reached (standing_view standing.now) }
    {
        match standing {
            Standing::Apex(_) | Standing::Insecure(_, _) | Standing::Bogus(_) => true,
            _ => self.here.is_some(),
        }
    }

    /// A node that was kept is reached.
    fn reach_got(&mut self, node: Arc<Node<V>>) -> Result<(), NoMemory>
        requires { Fits self.old }
        ensures ok { IfOk result (λ _. self.new ≡ machine.with_got self.old (arc_value node)) }
        ensures lost { OnErr result (IsSameWay self.old self.new) }
    {
        let behind = self.one_more();
        let here = arrived(&self.here, &node)?;
        self.got.push(node)?;
        self.here = Some(here);
        self.behind = behind;
        Ok(())
    }
}
