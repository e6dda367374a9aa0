//! Data as signatures take them, octet by octet, and their order; none of it takes memory (RFC 4034 6.2, 6.3).

ghost use Rattle.std.specs.Prelude.{◌≡◌, ◌<◌, [], ◌∷◌, length, map, List, ℕ, IfNone, IfSome, IsTrue, Some};
ghost use Rattle.std.specs.Cmp.Lexicographic.{slice_cmp};
ghost use Rattle.std.specs.Option.{is_some, option_map};
ghost use Rattle.std.specs.Ordering.{nat_cmp};
ghost use Rattle.dsec_wire.specs.Canonical.{canonical_in, canonical_piece};
ghost use Rattle.dsec_wire.specs.Fields.{field_view};
ghost use Rattle.dsec_wire.specs.SignedOctets.{in_case, left_of, octets_left, room_left};

use crate::layout::Field;
use crate::part::part_size;
use std::cmp::Ordering;

/// What is left of data as signatures take them.
#[derive(Clone, Copy)]
pub(crate) struct SignedOctets<'a> {
    // What is left of the field at the front.
    part: &'a [u8],
    is_lowered: bool,
    // The fields after it, and the octets that these take.
    fields: &'static [Field],
    rest: &'a [u8],
}

impl<'a> SignedOctets<'a> {
    /// All that these fields take.
    pub(crate) fn new(fields: &'static [Field], octets: &'a [u8]) -> Self
        ensures { octets_left result ≡ canonical_in (map field_view fields.now) octets.now }
    {
        SignedOctets {
            part: &[],
            is_lowered: false,
            fields,
            rest: octets,
        }
    }

    /// The first octet, which is then taken.
    fn next(&mut self) -> Option<u8>
        requires { IsTrue (is_some (octets_left self.old)) }
        ensures taken { IfSome result (λ first. octets_left self.old ≡ option_map (λ x. first ∷ x) (octets_left self.new)) }
        ensures end { IfNone result (octets_left self.old ≡ Some []) }
        ensures fewer { IfSome result (λ _. room_left self.new < room_left self.old) }
    {
        while self.part.is_empty() {
            *self = self.next_part()?;
        }
        let (first, part) = self.part.split_first()?;
        self.part = part;
        Some(if self.is_lowered {
            first.to_ascii_lowercase()
        } else {
            *first
        })
    }

    /// The same, where the field at the front has no octet left.
    fn next_part(&self) -> Option<Self>
        requires empty { self.now.part.now ≡ [] }
        requires readable { IsTrue (is_some (octets_left self.now)) }
        ensures same { IfSome result (λ next. octets_left next ≡ octets_left self.now) }
        ensures room { IfSome result (λ next. room_left next ≡ room_left self.now) }
        ensures fewer { IfSome result (λ next. length next.fields.now < length self.now.fields.now) }
        ensures end { IfNone result (octets_left self.now ≡ Some []) }
    {
        let Some((field, fields)) = self.fields.split_first() else {
            return None;
        };
        // The octets are readable, so each field takes some.
        let size = part_size(*field, self.rest).unwrap_or(0);
        let (part, rest) = self.rest.split_at(size);
        Some(SignedOctets {
            part,
            is_lowered: is_lowered(*field),
            fields,
            rest,
        })
    }
}

/// Whether signatures take the field in lower case.
fn is_lowered(field: Field) -> bool
    ensures { (x : List ℕ) → in_case result x ≡ canonical_piece (field_view field) x }
{
    match field {
        Field::LoweredName => true,
        _ => false,
    }
}

/// The order of two data as strings of the octets that signatures take.
pub(crate) fn compare(left: &SignedOctets<'_>, right: &SignedOctets<'_>) -> Ordering
    requires left { IsTrue (is_some (octets_left left.now)) }
    requires right { IsTrue (is_some (octets_left right.now)) }
    ensures { result ≡ slice_cmp nat_cmp (left_of left.now) (left_of right.now) }
{
    let mut x = *left;
    let mut y = *right;
    while let Some(a) = x.next() {
        let Some(b) = y.next() else {
            return Ordering::Greater;
        };
        if a != b {
            return a.cmp(&b);
        }
    }
    match y.next() {
        Some(_) => Ordering::Less,
        None => Ordering::Equal,
    }
}
