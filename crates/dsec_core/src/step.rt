//! What a message that is judged asks for.

use dsec_crypto::Verifier;
use dsec_name::Name;
use dsec_node::Node;
use dsec_number::Rtype;
use dsec_outcome::Outcome;
use std::sync::Arc;

/// What a message that is judged asks for next.
#[derive(Drop)]
pub enum Step<V: Verifier> {
    /// The node of a name, if one is kept; answered by `Input::Node`.
    NodeGet(Name),
    /// That a node be kept for a name; answered by `Input::Stored`.
    NodePut(Name, Arc<Node<V>>),
    /// The reply to the question for the set of a type at a name; answered by `Input::Reply`.
    Ask(Name, Rtype),
    /// Nothing more: this is what the message comes to.
    Done(Outcome<V>),
}

/// A step, or the refusal at the end.
#[derive(Drop)]
pub(crate) enum Next<V: Verifier> {
    /// The step.
    Says(Step<V>),
    /// The message hasn't one question (RFC 1035 4.1.2).
    Refuses,
}
