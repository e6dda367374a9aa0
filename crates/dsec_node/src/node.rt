//! What is known of a name, and for how long (RFC 4033 5, RFC 4035 4.3, 4.5).

ghost use Rattle.std.specs.Prelude.{◌≡◌, ◌≢◌, List, ℕ, IfNone, IfOk, IfSome, Some};
ghost use Rattle.std.specs.Option.{option_map};
ghost use Rattle.dsec_spec.specs.Names.{place};
ghost use Rattle.dsec_spec.specs.Numbers.{DNSKEY};
ghost use Rattle.dsec_link.specs.Sets.{AreOf, octets_of};
ghost use Rattle.dsec_nodes.specs.Nodes.{IsWithin, Kept, apex};
ghost use Rattle.dsec_nodes.specs.Walk.{held_keys};
ghost use Rattle.dsec_node.specs.Views.{bounds_view, cause_view, last_link, signed_cause, standing_view, state_of, told_cause};

use crate::bounds::Bounds;
use crate::keys::Keys;
use crate::standing::{SignedCause, Standing};
use dsec_cause::Cause;
use dsec_crypto::{By, Verifier};
use dsec_group::ValidationState;
use dsec_link::{Link, Links};
use dsec_name::{Name, NoMemory};
use dsec_wire::{Data, Record};
use std::marker::Model;

/// What is known of a name, from a moment on and for so many seconds: from which anchor, and by which links to which zone. One
/// that isn't bogus can't be made unless it holds for so long, by signatures that `V` accepts.
#[derive(Drop)]
pub struct Node<V: Verifier> {
    name: Name,
    made: u64,
    valid_for: u64,
    anchor: Option<Record>,
    signer: Name,
    links: Links,
    standing: Standing,
    bounds: Bounds,
    by: By<V>,
}

impl<V: Verifier> Model for Node<V> {
    ghost use Rattle.dsec_spec.specs.Names.{place};
    ghost use Rattle.dsec_nodes.specs.Nodes as nodes;
    ghost use Rattle.dsec_node.specs.Views.{bounds_view, standing_view};

    ghost Value = { nodes.Node };

    ghost view = { λ it. record { name = place it.name; made = it.made; valid_for = it.valid_for; anchor = it.anchor; signer = place it.signer; links = it.links; standing = standing_view it.standing; bounds = bounds_view it.bounds } };

    ghost invariant = { λ it. nodes.Kept V.accepts (record { name = place it.name; made = it.made; valid_for = it.valid_for; anchor = it.anchor; signer = place it.signer; links = it.links; standing = standing_view it.standing; bounds = bounds_view it.bounds }) };
}

impl<V: Verifier> Node<V> {
    /// A node that holds as long as it is kept. It stands at `name`, was made at `made` and is kept for `valid_for` seconds, and
    /// `signer` is the zone that its links lead to.
    pub(crate) fn new(
        name: Name,
        made: u64,
        valid_for: u64,
        anchor: Option<Record>,
        signer: Name,
        links: Links,
        standing: Standing,
        bounds: Bounds,
    ) -> Node<V>
        requires { Kept V.accepts (record { name = place name; made = made; valid_for = valid_for; anchor = anchor; signer = place signer; links = links; standing = standing_view standing; bounds = bounds_view bounds }) }
        ensures { result ≡ record { name = place name; made = made; valid_for = valid_for; anchor = anchor; signer = place signer; links = links; standing = standing_view standing; bounds = bounds_view bounds } }
    {
        Node {
            name,
            made,
            valid_for,
            anchor,
            signer,
            links,
            standing,
            bounds,
            by: By::new(),
        }
    }

    /// The name that this is known of.
    pub fn name(&self) -> &Name
        ensures { place result.now ≡ self.now.name }
    {
        &self.name
    }

    /// The zone that is to have signed the records at the name; of an insecure or bogus node, as they are made here, the name.
    pub fn signer_name(&self) -> &Name
        ensures { place result.now ≡ self.now.signer }
    {
        &self.signer
    }

    /// The anchor that the links start from; a node that isn't bogus has one.
    pub fn anchor(&self) -> Option<&Record>
        ensures { option_map (λ one. one.now) result ≡ self.now.anchor }
    {
        self.anchor.as_ref()
    }

    /// The links to the zone's keys.
    pub fn chain(&self) -> &Links
        ensures value { result.now ≡ self.now.links }
        ensures kept { Kept V.accepts self.now }
    {
        &self.links
    }

    /// What is known of the name.
    pub fn standing(&self) -> &Standing
        ensures value { standing_view result.now ≡ self.now.standing }
        ensures kept { Kept V.accepts self.now }
    {
        &self.standing
    }

    /// The bounds within which it was made.
    pub fn bounds(&self) -> Bounds
        ensures { bounds_view result ≡ self.now.bounds }
    {
        self.bounds
    }

    /// The moment at which it was made, in seconds since 1970.
    pub fn made(&self) -> u64
        ensures { result ≡ self.now.made }
    {
        self.made
    }

    /// For how many seconds from its making it is kept.
    pub fn valid_for(&self) -> u64
        ensures { result ≡ self.now.valid_for }
    {
        self.valid_for
    }

    /// The security status: secure where a chain leads to the name's zone (RFC 4033 5).
    pub fn validation_state(&self) -> ValidationState
        ensures { result ≡ state_of self.now.standing }
    {
        match &self.standing {
            Standing::Apex(_) | Standing::Within(_) => ValidationState::Secure,
            Standing::Insecure(_, _) => ValidationState::Insecure,
            Standing::Bogus(_) => ValidationState::Bogus,
        }
    }

    /// Why it is bogus, or insecure, where that has a cause (RFC 8914).
    pub fn extended_error(&self) -> Option<Cause>
        ensures { result ≡ told_cause self.now.standing }
    {
        match &self.standing {
            Standing::Apex(_) | Standing::Within(_) => None,
            Standing::Insecure(cause, _) => *cause,
            Standing::Bogus(cause) => Some(*cause),
        }
    }

    /// The data of the zone's keys; none where no zone begins at the name.
    pub fn keys(&self) -> &[Data]
        ensures values { octets_of result.now ≡ held_keys self.now.standing }
        ensures typed { AreOf DNSKEY result.now }
    {
        match &self.standing {
            Standing::Apex(keys) => keys.datas(),
            _ => &[],
        }
    }

    /// The keys of the zone that begins at the name, where one does.
    pub fn apex_keys(&self) -> Option<&Keys>
        ensures value { IfSome result (λ keys. self.now.standing ≡ apex keys.now) }
        ensures none { IfNone result ((keys : List (List ℕ)) → self.now.standing ≢ apex keys) }
    {
        match &self.standing {
            Standing::Apex(keys) => Some(keys),
            _ => None,
        }
    }

    /// Whether the name is within the zone above it, and no zone begins there.
    pub fn intermediate(&self) -> bool
        ensures { result ≡ IsWithin self.now.standing }
    {
        matches!(self.standing, Standing::Within(_))
    }

    /// The link of the set that shows that no zone begins at the name, of a node within a zone.
    pub fn shown_by(&self) -> Option<&Link>
        ensures { option_map (λ last. last.now) result ≡ last_link self.now.standing }
    {
        match &self.standing {
            Standing::Within(last) => Some(last),
            _ => None,
        }
    }

    /// The signed record that shows that no chain leads to the name, of an insecure node.
    pub fn cause(&self) -> Option<&SignedCause>
        ensures { option_map (λ signed. cause_view signed.now) result ≡ signed_cause self.now.standing }
    {
        match &self.standing {
            Standing::Insecure(_, signed) => Some(signed),
            _ => None,
        }
    }

    /// A copy of the anchor.
    pub fn copied_anchor(&self) -> Result<Option<Record>, NoMemory>
        ensures { IfOk result (λ anchor. anchor ≡ self.now.anchor) }
    {
        Ok(self.anchor.clone()?)
    }
}
