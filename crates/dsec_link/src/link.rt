//! Links of chains of trust (RFC 4033 3.1, RFC 4035 5).

ghost use Rattle.std.specs.Prelude.{◌≡◌, ◌↔◌, [], Some, IfOk, IsTrue, length};
ghost use Rattle.std.specs.Option.{option_map};
ghost use Rattle.dsec_spec.specs.Numbers.{RRSIG};
ghost use Rattle.dsec_spec.specs.Records.{rrsig_of};
ghost use Rattle.dsec_wire.specs.Views.{rrsig_view};
ghost use Rattle.dsec_link.specs.Links.{kind_view};

use crate::record_set::RecordSet;
use dsec_name::{NoMemory, Octets};
use dsec_wire::{Data, Rrsig};
use std::alloc::{AllocError, Global};
use std::marker::Model;
use std::sync::Arc;

/// What a link of a chain is.
#[derive(Clone, Copy, Debug, PartialEq, Eq)]
pub enum LinkKind {
    /// A DNSKEY set with a key that is an anchor.
    AnchorKey,
    /// A DNSKEY set with a key that an anchor's DS record speaks of.
    AnchorDs,
    /// A DS set in the zone above.
    Ds,
    /// A DNSKEY set with a key that the DS set before it speaks of.
    Key,
    /// The set that the chain leads to.
    Set,
}

/// A signed set and how it was reached. `via` is the data of the anchor or of the DS record that speaks of the
/// key, `signing_key` the data of the DNSKEY record whose key signed the set, `rrsig` those of the RRSIG record by
/// which it did. A link by itself proves nothing. A copy shares all of it, so that chains through one zone hold its keys once.
#[derive(Drop)]
pub struct Link {
    parts: Arc<Parts>,
}

/// What a link holds.
#[derive(Drop)]
struct Parts {
    kind: LinkKind,
    records: RecordSet,
    via: Option<Octets>,
    signing_key: Octets,
    rrsig: Data,
}

impl Model for Link {
    ghost use Rattle.dsec_spec.specs.Chain as chain;

    ghost Value = { chain.Link };

    ghost use Rattle.std.specs.Prelude.{◌≡◌};
    ghost use Rattle.std.specs.Arc.{arc_value};
    ghost use Rattle.dsec_spec.specs.Numbers.{RRSIG};
    ghost use Rattle.dsec_link.specs.Links.{kind_view};

    ghost view = { λ it. record { kind = kind_view (arc_value it.parts).kind; records = (arc_value it.parts).records; via = (arc_value it.parts).via; signing_key = (arc_value it.parts).signing_key; rrsig = (arc_value it.parts).rrsig.octets } };

    ghost invariant = { λ it. (arc_value it.parts).rrsig.rtype ≡ RRSIG };
}

impl Clone for Link {
    ghost use Rattle.std.specs.Prelude.{◌≡◌};

    ghost is_clone = { λ old new. new ≡ old };

    fn clone(&self) -> Result<Link, AllocError> {
        let parts = Arc::try_clone(&self.parts)?;
        Ok(Link { parts })
    }
}

impl Link {
    /// A link of these parts.
    pub fn new(
        alloc: Global,
        kind: LinkKind,
        records: RecordSet,
        via: Option<Octets>,
        signing_key: Octets,
        rrsig: Data,
    ) -> Result<Link, NoMemory>
        requires { rrsig.rtype ≡ RRSIG }
        ensures { IfOk result (λ link. link ≡ record { kind = kind_view kind; records = records; via = via; signing_key = signing_key; rrsig = rrsig.octets }) }
    {
        let parts = Parts {
            kind,
            records,
            via,
            signing_key,
            rrsig,
        };
        let parts = Arc::new(alloc, parts)?;
        Ok(Link { parts })
    }

    /// What the link is.
    pub fn kind(&self) -> LinkKind
        ensures { kind_view result ≡ self.now.kind }
    {
        self.parts.kind
    }

    /// The signed set.
    pub fn records(&self) -> &RecordSet
        ensures { result.now ≡ self.now.records }
    {
        &self.parts.records
    }

    /// The data of the anchor or the DS record that speaks of the key, where there is one.
    pub fn via(&self) -> Option<&Octets>
        ensures { option_map (λ octets. octets.now) result ≡ self.now.via }
    {
        self.parts.via.as_ref()
    }

    /// The data of the DNSKEY record whose key signed the set.
    pub fn signing_key(&self) -> &Octets
        ensures { result.now ≡ self.now.signing_key }
    {
        &self.parts.signing_key
    }

    /// The data of the RRSIG record by which the key signed the set.
    pub fn rrsig_data(&self) -> &Data
        ensures { result.now ≡ record { rtype = RRSIG; octets = self.now.rrsig } }
    {
        &self.parts.rrsig
    }

    /// The signature by which the key signed the set.
    pub fn rrsig(&self) -> Rrsig<'_>
        ensures { rrsig_of self.now.rrsig ≡ Some (rrsig_view result) }
    {
        match self.parts.rrsig.rrsig() {
            Some(rrsig) => rrsig,
            None => unreachable!(),
        }
    }
}

/// Links, the first at the anchor.
#[derive(Drop)]
pub struct Links {
    items: Vec<Link>,
}

impl Model for Links {
    ghost use Rattle.std.specs.Prelude.{List};
    ghost use Rattle.dsec_spec.specs.Chain as chain;

    ghost Value = { List chain.Link };

    ghost view = { λ it. it.items.items };
}

impl Clone for Links {
    ghost use Rattle.std.specs.Prelude.{◌≡◌};

    ghost is_clone = { λ old new. new ≡ old };

    fn clone(&self) -> Result<Links, AllocError> {
        let items = self.items.clone()?;
        Ok(Links { items })
    }
}

impl Links {
    /// The links of a vector.
    pub fn new(items: Vec<Link>) -> Self
        ensures { result ≡ items.items }
    {
        Links { items }
    }

    /// The links as a slice.
    pub fn as_slice(&self) -> &[Link]
        ensures { result.now ≡ self.now }
    {
        &self.items
    }

    /// How many links there are.
    pub fn len(&self) -> usize
        ensures { result ≡ length self.now }
    {
        self.items.len()
    }

    /// Whether there is no link.
    pub fn is_empty(&self) -> bool
        ensures { IsTrue result ↔ (self.now ≡ []) }
    {
        self.items.is_empty()
    }

    /// The vector that the links are kept in.
    pub fn into_vec(self) -> Vec<Link>
        ensures { result.items ≡ self }
    {
        self.items
    }
}

/// `==` on kinds of links is equality.
pub fn law_of_equal_kinds(kind: LinkKind, other: LinkKind) -> bool
    ensures { IsTrue result ↔ (kind ≡ other) }
{
    kind == other
}
