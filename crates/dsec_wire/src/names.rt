//! Names in messages, which may end in a pointer to an earlier place (RFC 1035 4.1.4).

ghost use Rattle.std.specs.Prelude.{◌≡◌, ◌≤◌, length, ℕ, Some, IfOk, IfSome};
ghost use Rattle.std.specs.Option.{option_map};
ghost use Rattle.dsec_spec.specs.Names.{Labels};
ghost use Rattle.dsec_spec.specs.Reading.{Reads};
ghost use Rattle.dsec_spec.specs.WireNames.{IsReadableName, NameRead, name_at as name_of};
ghost use Rattle.dsec_wire.specs.Errors.{wants_memory};
ghost use Rattle.dsec_wire.specs.NameOctets.{octets_read, name_octets};

use crate::error::MessageError;
use crate::numbers::{Head, head_at};
use arrayvec::ArrayVec;
use dsec_name::Name;
use std::alloc::Global;

/// The octets that a name has on the wire at most (RFC 1035 2.3.4).
const MAX_NAME: usize = 255;

/// 255 pointers, 127 labels and the root.
const STEPS: u16 = 383;

/// The name at a place of octets, and the place after it. Pointers lead to smaller places, at most 255 of
/// them; anything else at the place is refused (RFC 1035 3.1, 4.1.4). It takes time for one name, whatever
/// the octets.
pub fn read_name(alloc: Global, message: &[u8], at: usize) -> Result<(Name, usize), MessageError>
    ensures found { IfOk result (λ read. IsReadableName message.now at read.0 read.1) }
    ensures only { (name : Labels) (after : ℕ) → IsReadableName message.now at name after → Reads {Y = NameRead} wants_memory (λ read. (read.0, read.1)) result (Some (name, after)) }
    ensures exact { Reads {Y = NameRead} wants_memory (λ read. (read.0, read.1)) result (name_of message.now at) }
{
    name_at(alloc, message, at)
}

/// The same, for the readers of questions and records.
pub(crate) fn name_at(
    alloc: Global,
    message: &[u8],
    at: usize,
) -> Result<(Name, usize), MessageError>
    ensures exact { Reads {Y = NameRead} wants_memory (λ read. (read.0, read.1)) result (name_of message.now at) }
    ensures within { IfOk result (λ read. read.1 ≤ length message.now) }
{
    let Some((octets, after)) = name_octets_at(message, at) else {
        return Err(MessageError::ParseError);
    };
    match Name::from_wire(alloc, octets.as_slice()) {
        Ok(name) => Ok((name, after)),
        // The octets are a name's, so only memory was wanting.
        Err(_) => Err(MessageError::NoMemory),
    }
}

/// The octets of the name at a place, uncompressed, and the place after it.
pub(crate) fn name_octets_at(message: &[u8], start: usize) -> Option<(ArrayVec<u8, 255>, usize)>
    ensures exact { option_map octets_read result ≡ name_octets message.now start }
    ensures within { IfSome result (λ read. read.1 ≤ length message.now) }
{
    let mut octets = ArrayVec::<u8, 255>::new();
    let mut at = start;
    let mut pointers = 255u8;
    let mut after = None;
    for _ in 0..STEPS {
        match head_at(message, at)? {
            Head::Root => {
                octets.push(0);
                return Some((octets, after.unwrap_or(at + 1)));
            }
            Head::Label(size) => {
                if MAX_NAME - octets.len() < size + 2 {
                    return None;
                }
                let end = at + 1 + size;
                let _fits = octets.try_extend_from_slice(&message[at..end]);
                at = end;
            }
            Head::Pointer(target) => {
                if pointers == 0 {
                    return None;
                }
                pointers -= 1;
                after = Some(after.unwrap_or(at + 2));
                at = target;
            }
        }
    }
    None
}
