//! Domain names.

ghost use Rattle.std.specs.Prelude.{◌≡◌, ◌↔◌, ◌≤◌, ◌++◌, [], ◌∷◌, length, IfOk, OnOk, OnErr, IsTrue};
ghost use Rattle.std.specs.Option.{option_map};
ghost use Rattle.std.specs.List.{list_any};
ghost use Rattle.dsec_spec.specs.Names.{Labels, IsAtOrBelow, IsName, canonical_octets, label_count, name_cmp, place, rrsig_label_count, wire_length, wire_octets};
ghost use Rattle.dsec_spec.specs.Reading.{Gives};
ghost use Rattle.dsec_name.specs.Errors.{Answers, is_long, wants_memory};
ghost use Rattle.dsec_name.specs.Keys.{IsWhole, labels_octets, labels_of};
ghost use Rattle.dsec_name.specs.NameRefs.{name_view};
ghost use Rattle.dsec_name.specs.Parts.{parent_of};
ghost use Rattle.dsec_name.specs.Wire.{IsOnWire, name_on_wire, wire_labels};

use crate::compare::{compare, is_at_or_below, order_in_chain, order_of_siblings};
use crate::error::{NameError, NoMemory};
use crate::name_ref::NameRef;
use arrayvec::ArrayVec;
use std::alloc::Global;
use std::cmp::Ordering;
use std::marker::Model;

/// The octets that a label has at most (RFC 1035 2.3.4).
pub(crate) const MAX_LABEL: u8 = 63;

/// The octets that a name has on the wire at most (RFC 1035 2.3.4).
pub(crate) const MAX_NAME: usize = 255;

/// A domain name. A clause sees its labels as they came, the leftmost first and without the root's.
/// Comparisons leave ASCII case aside, and order names canonically (RFC 4034 6.1).
#[derive(Clone, Drop)]
pub struct Name {
    octets: Vec<u8>,
}

impl Model for Name {
    ghost use Rattle.std.specs.Prelude.{List, ℕ};
    ghost use Rattle.dsec_name.specs.Keys.{IsWhole, labels_of};

    ghost Value = { List (List ℕ) };

    ghost view = { λ name. labels_of name.octets.items };

    ghost invariant = { λ name. IsWhole name.octets.items };
}

impl Name {
    /// The root of the tree, which has no label but its own.
    pub fn root(alloc: Global) -> Self
        ensures { result ≡ [] }
    {
        Name {
            octets: Vec::new(alloc),
        }
    }

    /// The name that octets write, uncompressed, with the root's length as their last (RFC 1035 3.1).
    pub fn from_wire(alloc: Global, octets: &[u8]) -> Result<Self, NameError>
        ensures exact { Gives {Y = Labels} wants_memory (λ name. name) result (name_on_wire octets.now) }
        ensures meaning { Answers (λ labels. IsOnWire labels octets.now) result }
    {
        Name::read_wire(alloc, octets)
    }

    /// The same, without what the answer says of the octets.
    fn read_wire(alloc: Global, octets: &[u8]) -> Result<Self, NameError>
        ensures { Gives {Y = Labels} wants_memory (λ name. name) result (name_on_wire octets.now) }
    {
        match has_long_label(octets) {
            None => return Err(NameError::BadLabel),
            Some(true) => return Err(NameError::LongLabel),
            Some(false) => {}
        }
        if octets.len() > MAX_NAME {
            return Err(NameError::LongName);
        }
        let labels = &octets[..octets.len() - 1];
        Ok(Name::keep(Vec::from_slice(alloc, labels)?))
    }

    /// A name of labels on the wire, without the root's.
    pub(crate) fn keep(octets: Vec<u8>) -> Self
        requires { IsWhole octets.items }
        ensures { result ≡ labels_of octets.items }
    {
        Name { octets }
    }

    /// The labels as octets, each with its length before it, and without the root's.
    pub(crate) fn octets(&self) -> &[u8]
        ensures octets { result.now ≡ labels_octets self.now }
        ensures name { IsName self.now }
    {
        &self.octets
    }

    /// The name, borrowed.
    pub fn as_name_ref(&self) -> NameRef<'_>
        ensures { name_view result ≡ self.now }
    {
        NameRef::of_labels(&self.octets)
    }

    /// The name without its leftmost label; none for the root.
    pub fn parent(&self) -> Result<Option<Self>, NoMemory>
        ensures { IfOk result (λ parent. parent ≡ parent_of self.now) }
    {
        let Some((&length, after)) = self.octets.split_first() else {
            return Ok(None);
        };
        let alloc = *self.octets.allocator();
        let (_, rest) = after.split_at(usize::from(length));
        Ok(Some(Name::keep(Vec::from_slice(alloc, rest)?)))
    }

    /// Whether the name is the root.
    pub fn is_root(&self) -> bool
        ensures { IsTrue result ↔ (self.now ≡ []) }
    {
        self.octets().is_empty()
    }

    /// How many octets the name has on the wire, uncompressed.
    pub fn wire_len(&self) -> usize
        ensures value { result ≡ wire_length self.now }
        ensures at_most { result ≤ 255 }
    {
        self.octets().len() + 1
    }

    /// How many labels the name has, the root's among them.
    pub fn label_count(&self) -> usize
        ensures { result ≡ label_count self.now }
    {
        self.as_name_ref().label_count()
    }

    /// How many labels an RRSIG record counts: neither the root's nor a leftmost `*` (RFC 4034 3.1.3).
    pub fn rrsig_label_count(&self) -> u8
        ensures { result ≡ rrsig_label_count self.now }
    {
        let labels = self.label_count() - 1;
        if self.octets().starts_with(&[1, b'*']) {
            (labels - 1) as u8
        } else {
            labels as u8
        }
    }

    /// Whether the names have the same octets, their letters too.
    pub fn is_identical(&self, other: &Self) -> bool
        ensures { IsTrue result ↔ (self.now ≡ other.now) }
    {
        *self.octets() == *other.octets()
    }

    /// The canonical order (RFC 4034 6.1).
    pub fn canonical_cmp(&self, other: &Self) -> Ordering
        ensures { result ≡ name_cmp self.now other.now }
    {
        if let Some(order) = order_of_siblings(&self.octets, &other.octets) {
            return order;
        }
        match order_in_chain(&self.octets, &other.octets) {
            Some(order) => order,
            None => compare(&self.octets, &other.octets),
        }
    }

    /// Whether the name is `base`, or stands under it, ASCII case aside.
    pub fn ends_with(&self, base: &Self) -> bool
        ensures { IsTrue result ↔ IsAtOrBelow (place self.now) (place base.now) }
    {
        is_at_or_below(&self.octets, &base.octets)
    }

    /// Adds the name's octets, uncompressed and with the letters as they came (RFC 1035 3.1).
    pub fn compose(&self, out: &mut Vec<u8>) -> Result<(), NoMemory>
        ensures ok { OnOk result (out.new.items ≡ out.old.items ++ wire_octets self.now) }
        ensures err { OnErr result (out.new.items ≡ out.old.items) }
        ensures name { IsName self.now }
    {
        let labels = self.octets();
        out.reserve(labels.len() + 1)?;
        out.extend_from_slice(labels)?;
        out.push_reserved(0);
        Ok(())
    }

    /// The name's canonical octets: uncompressed and in lower case (RFC 4034 6.2).
    pub fn canonical_octets(&self) -> ArrayVec<u8, 255>
        ensures { result.items ≡ canonical_octets self.now }
    {
        self.as_name_ref().canonical_octets()
    }

    /// Adds the name's canonical octets: uncompressed and in lower case (RFC 4034 6.2).
    pub fn compose_canonical(&self, out: &mut Vec<u8>) -> Result<(), NoMemory>
        ensures ok { OnOk result (out.new.items ≡ out.old.items ++ canonical_octets self.now) }
        ensures err { OnErr result (out.new.items ≡ out.old.items) }
    {
        self.as_name_ref().compose_canonical(out)
    }
}

/// Whether a label of the name on the wire has more than 63 octets; none where there are no such labels.
fn has_long_label(octets: &[u8]) -> Option<bool>
    ensures { result ≡ option_map (list_any is_long) (wire_labels octets.now) }
{
    let mut rest = octets;
    let mut long = false;
    while let Some((&length, after)) = rest.split_first() {
        if length == 0 {
            return if after.is_empty() { Some(long) } else { None };
        }
        let (_, next) = after.split_at_checked(usize::from(length))?;
        long |= length > MAX_LABEL;
        rest = next;
    }
    None
}
