//! What a judged group shares of its node: the signed record by which no chain leads on, or the links (RFC 4033 5, RFC 4035 5.2).

ghost use Rattle.std.specs.Prelude.{◌≡◌, [], IfOk, Some, true};
ghost use Rattle.std.specs.Arc.{arc_value};
ghost use Rattle.dsec_node.specs.Views.{cause_view, signed_cause};
ghost use Rattle.dsec_found.specs.Founds.{LeadsToKeys};
ghost use Rattle.dsec_found.specs.Outcomes.{AreKeptLinks, HoldsCause, IsKeptCause};

use dsec_crypto::Verifier;
use dsec_link::Link;
use dsec_name::NoMemory;
use dsec_node::{Node, SignedCause, Standing};
use std::alloc::AllocError;
use std::marker::Model;
use std::sync::Arc;

/// The signed record that shows that no chain leads to a node's name, shared with the node.
#[derive(Drop)]
pub struct SharedCause<V: Verifier> {
    node: Arc<Node<V>>,
}

impl<V: Verifier> Model for SharedCause<V> {
    ghost use Rattle.std.specs.Prelude.{Option};
    ghost use Rattle.std.specs.Arc.{arc_value};
    ghost use Rattle.dsec_nodes.specs.Nodes as nodes;
    ghost use Rattle.dsec_node.specs.Views.{signed_cause};
    ghost use Rattle.dsec_found.specs.Outcomes.{HoldsCause};

    ghost Value = { Option nodes.SignedCause };

    ghost view = { λ it. signed_cause (arc_value it.node).standing };

    ghost invariant = { λ it. HoldsCause (arc_value it.node) };
}

impl<V: Verifier> Clone for SharedCause<V> {
    ghost use Rattle.std.specs.Prelude.{◌≡◌};

    ghost is_clone = { λ old new. new ≡ old };

    fn clone(&self) -> Result<SharedCause<V>, AllocError> {
        let node = Arc::try_clone(&self.node)?;
        Ok(SharedCause { node })
    }
}

impl<V: Verifier> SharedCause<V> {
    /// The signed record of an insecure node.
    pub(crate) fn of(node: &Arc<Node<V>>) -> Result<SharedCause<V>, NoMemory>
        requires { HoldsCause (arc_value node.now) }
        ensures { IfOk result (λ it. it ≡ signed_cause (arc_value node.now).standing) }
    {
        let node = Arc::try_clone(node)?;
        Ok(SharedCause { node })
    }

    /// The record's kind, and the links that lead to it.
    pub fn cause(&self) -> &SignedCause
        ensures value { Some (cause_view result.now) ≡ self.now }
        ensures kept { IsKeptCause V.accepts self.now }
    {
        match self.node.standing() {
            Standing::Insecure(_, signed) => signed,
            _ => unreachable!(),
        }
    }
}

/// A zone whose keys were tried, by its node.
#[derive(Drop)]
enum TriedZone<V: Verifier> {
    /// None: the node that was found is bogus.
    NoZone,
    /// That of this node, which stands at the zone's apex or within it.
    Zone(Arc<Node<V>>),
}

/// The links to the zone whose keys were tried, shared with the zone's node; none where the node that was found is bogus.
#[derive(Drop)]
pub struct SharedLinks<V: Verifier> {
    zone: TriedZone<V>,
}

impl<V: Verifier> Model for SharedLinks<V> {
    ghost use Rattle.std.specs.Prelude.{List};
    ghost use Rattle.dsec_spec.specs.Chain.{Link};
    ghost use Rattle.dsec_found.specs.Tried.{HasKeys, tried_links};

    ghost Value = { List Link };

    ghost view = { λ it. tried_links it.zone };

    ghost invariant = { λ it. HasKeys it.zone };
}

impl<V: Verifier> Clone for SharedLinks<V> {
    ghost use Rattle.std.specs.Prelude.{◌≡◌};

    ghost is_clone = { λ old new. new ≡ old };

    fn clone(&self) -> Result<SharedLinks<V>, AllocError> {
        let zone = match &self.zone {
            TriedZone::NoZone => TriedZone::NoZone,
            TriedZone::Zone(node) => TriedZone::Zone(Arc::try_clone(node)?),
        };
        Ok(SharedLinks { zone })
    }
}

impl<V: Verifier> SharedLinks<V> {
    /// No links.
    pub(crate) fn none() -> SharedLinks<V>
        ensures { result ≡ [] }
    {
        SharedLinks {
            zone: TriedZone::NoZone,
        }
    }

    /// The links of a node that lead to a zone's keys.
    pub(crate) fn of(node: &Arc<Node<V>>) -> Result<SharedLinks<V>, NoMemory>
        requires { LeadsToKeys (arc_value node.now).standing ≡ true }
        ensures { IfOk result (λ it. it ≡ (arc_value node.now).links) }
    {
        let node = Arc::try_clone(node)?;
        Ok(SharedLinks {
            zone: TriedZone::Zone(node),
        })
    }

    /// The links, from the anchor's on.
    pub fn links(&self) -> &[Link]
        ensures value { result.now ≡ self.now }
        ensures kept { AreKeptLinks V.accepts self.now }
    {
        match &self.zone {
            TriedZone::NoZone => &[],
            TriedZone::Zone(node) => node.chain().as_slice(),
        }
    }
}
