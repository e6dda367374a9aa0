//! Judged groups: what was found of each, and by which node (RFC 4033 5, RFC 4035 4.3).

ghost use Rattle.std.specs.Prelude.{◌≡◌, IfOk};
ghost use Rattle.dsec_found.specs.Founds.{StandsOn, judged_view};
ghost use Rattle.dsec_found.specs.Told.{cause_of, state_of};

use crate::found::Found;
use dsec_cause::Cause;
use dsec_crypto::Verifier;
use dsec_group::{Group, ValidationState};
use dsec_name::{Name, NoMemory};
use dsec_node::Node;
use std::alloc::{AllocError, Global};
use std::marker::Model;
use std::sync::Arc;

mod why;

/// What a finding rests on.
#[derive(Drop)]
pub(crate) enum Basis<V: Verifier> {
    /// The group is of signatures alone.
    NoSet,
    /// No anchor stands at or above where the group is looked for; this zone was to have signed it.
    NoAnchor(Name),
    /// The node of the zone that is to have signed the group, and what was found by it.
    ByNode(Arc<Node<V>>, Found),
}

/// A group and what its finding rests on.
#[derive(Drop)]
struct Judgement<V: Verifier> {
    group: Group,
    basis: Basis<V>,
}

/// A group with the zone that is to have signed it, and what was found of it. It keeps the node of the zone, which it shares with
/// others, and the indexes of signature and key, and no link of its own; a copy shares all of it.
#[derive(Drop)]
pub struct JudgedGroup<V: Verifier> {
    shared: Arc<Judgement<V>>,
}

impl<V: Verifier> Model for JudgedGroup<V> {
    ghost use Rattle.std.specs.Arc.{arc_value};
    ghost use Rattle.dsec_nodes.specs.Judging.{Judged};
    ghost use Rattle.dsec_found.specs.Founds.{StandsOn, judged_view};

    ghost Value = { Judged };

    ghost view = { λ it. judged_view (arc_value it.shared).group (arc_value it.shared).basis };

    ghost invariant = { λ it. StandsOn (arc_value it.shared).group (arc_value it.shared).basis };
}

impl<V: Verifier> Clone for JudgedGroup<V> {
    ghost use Rattle.std.specs.Prelude.{◌≡◌};

    ghost is_clone = { λ old new. new ≡ old };

    fn clone(&self) -> Result<JudgedGroup<V>, AllocError> {
        let shared = Arc::try_clone(&self.shared)?;
        Ok(JudgedGroup { shared })
    }
}

impl<V: Verifier> JudgedGroup<V> {
    /// A group with what its finding rests on.
    pub(crate) fn new(
        alloc: Global,
        group: Group,
        basis: Basis<V>,
    ) -> Result<JudgedGroup<V>, NoMemory>
        requires { StandsOn group basis }
        ensures { IfOk result (λ it. it ≡ judged_view group basis) }
    {
        let shared = Arc::new(alloc, Judgement { group, basis })?;
        Ok(JudgedGroup { shared })
    }

    /// The group.
    pub fn group(&self) -> &Group
        ensures { result.now ≡ self.now.group }
    {
        &self.shared.group
    }

    /// The security status of the group (RFC 4033 5).
    pub fn state(&self) -> ValidationState
        ensures { result ≡ state_of self.now.finding }
    {
        match &self.shared.basis {
            Basis::NoSet => ValidationState::Insecure,
            Basis::NoAnchor(_) => ValidationState::Indeterminate,
            Basis::ByNode(_, Found::Shown(_, _)) => ValidationState::Secure,
            Basis::ByNode(_, Found::Insecure) => ValidationState::Insecure,
            Basis::ByNode(_, Found::Bogus(_) | Found::AtBogus(_)) => ValidationState::Bogus,
        }
    }

    /// Why the group isn't secure, where that has a cause (RFC 8914).
    pub fn cause(&self) -> Option<Cause>
        ensures { result ≡ cause_of self.now.finding }
    {
        match &self.shared.basis {
            Basis::NoSet => Some(Cause::RrsigWithoutRrset),
            Basis::NoAnchor(_) => Some(Cause::NoTrustAnchor),
            Basis::ByNode(_, Found::Shown(_, _)) => None,
            Basis::ByNode(node, Found::Insecure) => node.extended_error(),
            Basis::ByNode(_, Found::Bogus(cause) | Found::AtBogus(cause)) => Some(*cause),
        }
    }
}
