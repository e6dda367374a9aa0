//! The OPT record among others (RFC 6891 6.1.1).

ghost use Rattle.std.specs.Prelude.{◌≡◌, IfOk};
ghost use Rattle.dsec_spec.specs.Messages.{first_opt as first_opt_of};

use dsec_name::NoMemory;
use dsec_number::Rtype;
use dsec_wire::{MessageError, Record, record_at};
use std::alloc::Global;

/// The first OPT record among so many from a place on, where those before it are readable.
pub(crate) fn first_opt(
    alloc: Global,
    count: u16,
    message: &[u8],
    start: usize,
) -> Result<Option<Record>, NoMemory>
    ensures { IfOk result (λ found. found ≡ first_opt_of message.now count start) }
{
    let mut at = start;
    for _ in 0..count {
        match record_at(alloc, message, at) {
            Ok((record, after)) => {
                if record.rtype() == Rtype::OPT {
                    return Ok(Some(record));
                }
                at = after;
            }
            Err(MessageError::ParseError) => return Ok(None),
            Err(MessageError::NoMemory) => return Err(NoMemory),
        }
    }
    Ok(None)
}
