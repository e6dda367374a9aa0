//! What a walk asks for, and what it is given.

use dsec_crypto::Verifier;
use dsec_name::{Name, Octets};
use dsec_node::{Node, Pending};
use dsec_number::Rtype;
use std::sync::Arc;

/// What a walk asks for next.
#[derive(Drop)]
pub enum Step<V: Verifier> {
    /// The node of a name, if one is kept; answered by `Input::Node`.
    NodeGet(Name),
    /// That a node be kept for a name; answered by `Input::Stored`.
    NodePut(Name, Arc<Node<V>>),
    /// The reply to the question for the set of a type at a name; answered by `Input::Reply`.
    Ask(Name, Rtype),
    /// Nothing more: this is the node of the walk's target, or that of the name above it at which the walk ended.
    Done(Arc<Node<V>>),
}

/// What a walk is given.
#[derive(Drop)]
pub enum Input<V: Verifier> {
    /// That it may begin.
    Begin,
    /// The node that is kept for the name, if one is. Whether it counts is the walk's to see.
    Node(Option<Arc<Node<V>>>),
    /// That the node was kept; it may be forgotten at any time.
    Stored,
    /// The octets of the reply, or none where the question failed.
    Reply(Option<Octets>),
}

/// A question that a walk has asked.
#[derive(Drop)]
pub struct Question {
    /// The name.
    pub name: Name,
    /// The type.
    pub rtype: Rtype,
    /// The octets of the reply, or none where the question failed.
    pub reply: Option<Octets>,
}

/// What a walk waits for.
#[derive(Drop)]
pub(crate) enum Phase {
    /// To begin.
    Begins,
    /// For a node that is kept.
    Gets,
    /// For the first reply at a name.
    AsksFirst,
    /// For the reply with the key set that a DS set is to admit.
    AsksKeys(Pending),
    /// For a node to be kept.
    Puts,
    /// For nothing.
    Ends,
}
