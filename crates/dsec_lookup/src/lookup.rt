//! Nodes got from caches and put into them, and questions asked of an upstream (RFC 4035 4.3, 4.5).

ghost use Rattle.std.specs.Prelude.{◌≡◌, ◌∷◌, [], IfOk, IfSome, OnErr};
ghost use Rattle.std.specs.Arc.{arc_value};
ghost use Rattle.std.specs.Option.{option_map};
ghost use Rattle.dsec_spec.specs.Names.{place};
ghost use Rattle.dsec_spec.specs.Outside.{risen};
ghost use Rattle.dsec_nodes.specs.Nodes.{Kept};
ghost use Rattle.dsec_node.specs.Caches.{Adds, IsHeld, Keeps};
ghost use Rattle.dsec_lookup.specs.Finding.{GetLeads, PutLeads};
ghost use Rattle.dsec_lookup.specs.Outside.{HeardMore, faults_after, replies_of};

use dsec_crypto::Verifier;
use dsec_name::{Name, NoMemory, Octets};
use dsec_node::{Caches, Node};
use dsec_number::Rtype;
use dsec_outside::{AskError, Upstream};
use std::alloc::Global;
use std::sync::Arc;

/// The node that caches hold for a name, if they give one. Where they find no memory they give none, and lose none.
#[tactic(auto, using(crate::proofs::FindingLaws::gives_found, crate::proofs::FindingLaws::gives_none))]
pub fn held_node<V: Verifier, C: Caches<V>>(caches: &mut C, name: &Name) -> Option<Arc<Node<V>>>
    ensures keeps { Keeps (C.held caches.old) (C.held caches.new) }
    ensures found { IfSome result (λ node. Kept V.accepts (arc_value node) × IsHeld (C.held caches.old) (place name.now) (arc_value node)) }
    ensures given { GetLeads (C.lasting caches.old) (C.lasting caches.new) (place name.now) (option_map (λ node. arc_value node) result) }
{
    match caches.get(name) {
        Ok(Some(node)) => {
            rely_on(&node);
            Some(node)
        }
        Ok(None) => None,
        Err(NoMemory) => None,
    }
}

/// What a node's type says: it is kept (RFC 4035 4.5).
fn rely_on<V: Verifier>(node: &Node<V>)
    ensures { Kept V.accepts node.now }
{
    let _ = node.standing();
}

/// Holds a node for a name, where caches find memory.
#[tactic(auto, using(crate::proofs::FindingLaws::takes_put, crate::proofs::FindingLaws::takes_none))]
pub fn put_node<V: Verifier, C: Caches<V>>(caches: &mut C, name: Name, node: &Arc<Node<V>>)
    ensures adds { Adds (C.held caches.old) (C.held caches.new) (place name) (arc_value node.now) }
    ensures stored { PutLeads (C.lasting caches.old) (C.lasting caches.new) (place name) (arc_value node.now) }
{
    match caches.put(name, node) {
        Ok(()) => (),
        Err(NoMemory) => (),
    }
}

/// The upstream's reply to a question, or none where it failed.
#[tactic(auto, using(crate::proofs::HeardLaws::heard_one))]
pub fn reply_to<U: Upstream>(
    alloc: Global,
    upstream: &mut U,
    name: &Name,
    rtype: Rtype,
) -> Result<Option<Octets>, NoMemory>
    ensures told { IfOk result (λ reply. IfSome (U.table upstream.old) (λ t. replies_of t (place name.now) rtype ≡ reply)) }
    ensures faults { IfOk result (λ reply. U.faults upstream.new ≡ faults_after (U.faults upstream.old) reply) }
    ensures no_fault { OnErr result (U.faults upstream.new ≡ U.faults upstream.old) }
    ensures counted { U.asked upstream.new ≡ risen (U.asked upstream.old) }
    ensures heard { IfOk result (λ reply. HeardMore (U.heard upstream.old) (U.heard upstream.new) (record { name = place name.now; rtype = rtype; reply = reply } ∷ [])) }
    ensures unheard { OnErr result (U.heard upstream.new ≡ U.heard upstream.old) }
    ensures same_table { U.table upstream.new ≡ U.table upstream.old }
{
    match upstream.ask(alloc, name, rtype) {
        Ok(reply) => Ok(Some(Octets::new(reply))),
        Err(AskError::Failed) => Ok(None),
        Err(AskError::NoMemory) => Err(NoMemory),
    }
}
