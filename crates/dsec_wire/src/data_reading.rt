//! The data of a record in a message, their names uncompressed (RFC 1035 4.1.3, 4.1.4).

ghost use Rattle.std.specs.Prelude.{◌≡◌, ◌≤◌, List, ℕ, length, IfOk};
ghost use Rattle.dsec_spec.specs.Messages.{data_at as data_of};
ghost use Rattle.dsec_spec.specs.Reading.{Reads};
ghost use Rattle.dsec_wire.specs.DataReading.{Pushed, pushed_name, pushed_part};
ghost use Rattle.dsec_wire.specs.Errors.{wants_memory};
ghost use Rattle.dsec_wire.specs.Fields.{field_view};

use crate::error::MessageError;
use crate::layout::{Field, layout};
use crate::names::name_octets_at;
use crate::part::part_size;
use dsec_number::Rtype;
use std::alloc::Global;

/// The octets of a record's data at most (RFC 1035 3.2.1).
const MAX_DATA: usize = 65535;

/// The data that stand from one place up to another.
pub(crate) fn data_octets_at(
    alloc: Global,
    rtype: Rtype,
    message: &[u8],
    start: usize,
    end: usize,
) -> Result<Vec<u8>, MessageError>
    requires start { start ≤ end }
    requires end { end ≤ length message.now }
    ensures { Reads {Y = List ℕ} wants_memory (λ octets. octets.items) result (data_of rtype message.now start end) }
{
    let mut out = Vec::with_capacity(alloc, end - start)?;
    let mut at = start;
    let fields = layout(rtype);
    for field in fields {
        at = push_part(&mut out, *field, message, at, end)?;
    }
    if at != end || out.len() > MAX_DATA {
        return Err(MessageError::ParseError);
    }
    Ok(out)
}

/// Adds the part that a field has at a place, and returns the place after it.
fn push_part(
    out: &mut Vec<u8>,
    field: Field,
    message: &[u8],
    at: usize,
    end: usize,
) -> Result<usize, MessageError>
    requires at { at ≤ end }
    requires end { end ≤ length message.now }
    ensures exact { Reads {Y = Pushed} wants_memory (λ after. (out.new.items, after)) result (pushed_part out.old.items (field_view field) message.now at end) }
    ensures within { IfOk result (λ after. after ≤ end) }
{
    if field == Field::LoweredName || field == Field::KeptName {
        return push_name(out, message, at, end);
    }
    let rest = &message[at..end];
    let Some(size) = part_size(field, rest) else {
        return Err(MessageError::ParseError);
    };
    out.extend_from_slice(&rest[..size])?;
    Ok(at + size)
}

/// Adds the name at a place, and returns the place after it.
fn push_name(
    out: &mut Vec<u8>,
    message: &[u8],
    at: usize,
    end: usize,
) -> Result<usize, MessageError>
    ensures exact { Reads {Y = Pushed} wants_memory (λ after. (out.new.items, after)) result (pushed_name out.old.items message.now at end) }
    ensures within { IfOk result (λ after. after ≤ end) }
{
    let Some((octets, after)) = name_octets_at(message, at) else {
        return Err(MessageError::ParseError);
    };
    if end < after {
        return Err(MessageError::ParseError);
    }
    out.extend_from_slice(octets.as_slice())?;
    Ok(after)
}
