//! The canonical form of records' data (RFC 4034 6.2).

ghost use Rattle.std.specs.Prelude.{◌≡◌, ◌≤◌, ◌+◌, ◌++◌, Some, map, length, vec_len, IsTrue};
ghost use Rattle.std.specs.Option.{is_some, option_map};
ghost use Rattle.std.specs.Vec.{vec_capacity};
ghost use Rattle.dsec_spec.specs.RecordData.{parts_in};
ghost use Rattle.dsec_wire.specs.Canonical.{canonical_in, canonical_piece};
ghost use Rattle.dsec_wire.specs.Fields.{field_view};

use crate::layout::Field;
use crate::part::part_size;

/// Adds octets that these fields take as they are signed, where there is room.
pub(crate) fn push_canonical(out: &mut Vec<u8>, fields: &[Field], octets: &[u8])
    requires room { vec_len out.old + length octets.now ≤ vec_capacity out.old }
    requires readable { IsTrue (is_some (parts_in (map field_view fields.now) octets.now)) }
    ensures { option_map (λ x. out.old.items ++ x) (canonical_in (map field_view fields.now) octets.now) ≡ Some out.new.items }
{
    let mut rest = octets;
    for field in fields {
        // The octets are readable, so each field takes some.
        let size = part_size(*field, rest).unwrap_or(0);
        let (part, next) = rest.split_at(size);
        push_part(out, *field, part);
        rest = next;
    }
}

/// Adds a field's octets as they are signed, where there is room.
fn push_part(out: &mut Vec<u8>, field: Field, part: &[u8])
    requires { vec_len out.old + length part.now ≤ vec_capacity out.old }
    ensures items { out.new.items ≡ out.old.items ++ canonical_piece (field_view field) part.now }
    ensures len { vec_len out.new ≡ vec_len out.old + length part.now }
    ensures room { vec_capacity out.old ≤ vec_capacity out.new }
{
    if field == Field::LoweredName {
        for octet in part {
            // A length is at most 63, and so no letter.
            out.push_reserved(octet.to_ascii_lowercase());
        }
    } else {
        let _fits = out.extend_from_slice(part);
    }
}
