//! How much of a record's data each field takes, where names are uncompressed.

ghost use Rattle.std.specs.Prelude.{◌≡◌, ◌≤◌, length, map, IfSome};
ghost use Rattle.std.specs.Option.{is_some};
ghost use Rattle.dsec_spec.specs.RecordData.{blocks_in, parts_in};
ghost use Rattle.dsec_wire.specs.Fields.{field_view, name_size_in, part_size_in};

use crate::layout::Field;
use dsec_name::NameRef;

/// The octets of bits that a block of a type bitmap has at most (RFC 4034 4.1.2).
const MAX_BITS: usize = 32;

/// Whether these fields take all of the octets.
pub(crate) fn takes_all(fields: &[Field], octets: &[u8]) -> bool
    ensures { result ≡ is_some (parts_in (map field_view fields.now) octets.now) }
{
    let mut rest = octets;
    for field in fields {
        let Some(size) = part_size(*field, rest) else {
            return false;
        };
        let (_, next) = rest.split_at(size);
        rest = next;
    }
    rest.is_empty()
}

/// How many octets a field takes from the front.
pub(crate) fn part_size(field: Field, octets: &[u8]) -> Option<usize>
    ensures exact { result ≡ part_size_in (field_view field) octets.now }
    ensures within { IfSome result (λ size. size ≤ length octets.now) }
{
    match field {
        Field::LoweredName | Field::KeptName => name_size(octets),
        Field::Octets(size) => {
            let size = usize::from(size);
            if octets.len() < size {
                None
            } else {
                Some(size)
            }
        }
        Field::Text => {
            let (&size, text) = octets.split_first()?;
            let size = usize::from(size);
            if text.len() < size {
                None
            } else {
                Some(size + 1)
            }
        }
        Field::Bitmap => {
            if is_bitmap(octets) {
                Some(octets.len())
            } else {
                None
            }
        }
        Field::Rest => Some(octets.len()),
    }
}

/// How many octets the name at the front has.
fn name_size(octets: &[u8]) -> Option<usize>
    ensures exact { result ≡ name_size_in octets.now }
    ensures within { IfSome result (λ size. size ≤ length octets.now) }
{
    let (_, rest) = NameRef::from_prefix(octets)?;
    Some(octets.len() - rest.len())
}

/// Whether the octets are the blocks of a type bitmap.
fn is_bitmap(octets: &[u8]) -> bool
    ensures { result ≡ is_some (blocks_in (length octets.now) octets.now) }
{
    let mut rest = octets;
    while let Some((_, after)) = rest.split_first() {
        let Some((&size, after)) = after.split_first() else {
            return false;
        };
        let size = usize::from(size);
        if size == 0 || size > MAX_BITS {
            return false;
        }
        let Some((_, next)) = after.split_at_checked(size) else {
            return false;
        };
        rest = next;
    }
    true
}
