//! Names that are borrowed from octets.

ghost use Rattle.std.specs.Prelude.{◌≡◌, ◌↔◌, ◌<◌, ◌++◌, length, IfOk, IfSome, OnOk, OnErr, IsTrue};
ghost use Rattle.std.specs.Option.{option_map};
ghost use Rattle.dsec_spec.specs.Names.{canonical_octets, label_count as label_count_of, place};
ghost use Rattle.dsec_spec.specs.RecordData.{name_in};
ghost use Rattle.dsec_name.specs.Keys.{IsWhole, labels_of};
ghost use Rattle.dsec_name.specs.NamePrefix.{labels_size_in};

use crate::compare::same_ignoring_case;
use crate::error::NoMemory;
use crate::label::count_labels;
use crate::name::{MAX_LABEL, MAX_NAME, Name};
use arrayvec::ArrayVec;
use std::alloc::Global;

/// A domain name that stands uncompressed in octets of another value, its letters as they came. A clause sees
/// its labels by `name_view`.
#[derive(Clone, Copy)]
pub struct NameRef<'a> {
    // The labels on the wire, without the root's.
    octets: &'a [u8],
    ghost whole: { IsWhole octets.now },
}

impl<'a> NameRef<'a> {
    ghost use Rattle.dsec_name.specs.NameRefs.{name_view, prefix_view};

    /// The name at the front of these octets, and those after it; none where no name stands there (RFC 1035 3.1).
    pub fn from_prefix(octets: &'a [u8]) -> Option<(NameRef<'a>, &'a [u8])>
        ensures { option_map prefix_view result ≡ name_in octets.now }
    {
        let size = labels_size(octets)?;
        let (labels, _) = octets.split_at(size);
        let (_, rest) = octets.split_at(size + 1);
        Some((NameRef { octets: labels }, rest))
    }

    /// The name of labels on the wire, without the root's.
    pub(crate) fn of_labels(octets: &'a [u8]) -> NameRef<'a>
        requires { IsWhole octets.now }
        ensures { name_view result ≡ labels_of octets.now }
    {
        NameRef { octets }
    }

    /// Whether this is the name, ASCII case aside (RFC 4343 3).
    pub fn is(&self, name: &Name) -> bool
        ensures { IsTrue result ↔ (place (name_view self.now) ≡ place name.now) }
    {
        same_ignoring_case(self.octets, name.octets())
    }

    /// The name with memory of its own.
    pub fn to_name(&self, alloc: Global) -> Result<Name, NoMemory>
        ensures { IfOk result (λ name. name ≡ name_view self.now) }
    {
        Ok(Name::keep(Vec::from_slice(alloc, self.octets)?))
    }

    /// How many labels the name has, the root's among them.
    pub fn label_count(&self) -> usize
        ensures { result ≡ label_count_of (name_view self.now) }
    {
        count_labels(self.octets) + 1
    }

    /// The name's canonical octets: uncompressed and in lower case (RFC 4034 6.2).
    pub fn canonical_octets(&self) -> ArrayVec<u8, 255>
        ensures { result.items ≡ canonical_octets (name_view self.now) }
    {
        let mut out = ArrayVec::<u8, 255>::new();
        let labels = self.octets;
        // A length is at most 63, and so no letter.
        for octet in labels {
            out.push(octet.to_ascii_lowercase());
        }
        out.push(0);
        out
    }

    /// Adds the name's canonical octets: uncompressed and in lower case (RFC 4034 6.2).
    pub fn compose_canonical(&self, out: &mut Vec<u8>) -> Result<(), NoMemory>
        ensures ok { OnOk result (out.new.items ≡ out.old.items ++ canonical_octets (name_view self.now)) }
        ensures err { OnErr result (out.new.items ≡ out.old.items) }
    {
        let labels = self.octets;
        out.reserve(labels.len() + 1)?;
        // A length is at most 63, and so no letter.
        for octet in labels {
            out.push_reserved(octet.to_ascii_lowercase());
        }
        out.push_reserved(0);
        Ok(())
    }
}

/// How many octets the labels of the name at the front have, without the root's.
fn labels_size(octets: &[u8]) -> Option<usize>
    ensures exact { result ≡ labels_size_in octets.now }
    ensures within { IfSome result (λ size. size < length octets.now) }
{
    let mut rest = octets;
    while let Some((&size, after)) = rest.split_first() {
        let size = usize::from(size);
        if size == 0 {
            return Some(octets.len() - rest.len());
        }
        if size > usize::from(MAX_LABEL) {
            return None;
        }
        let (_, next) = after.split_at_checked(size)?;
        if octets.len() - next.len() >= MAX_NAME {
            return None;
        }
        rest = next;
    }
    None
}
