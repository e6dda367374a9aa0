//! What a rewriting keeps of a message: the questions, and the additional section (RFC 1035 4.1).

ghost use Rattle.std.specs.Prelude.{◌≡◌, List, ℕ};
ghost use Rattle.dsec_spec.specs.Messages as messages;
ghost use Rattle.dsec_spec.specs.Messages.{record_at as record_of};
ghost use Rattle.dsec_spec.specs.Reading.{Reads, many_of};
ghost use Rattle.dsec_spec.specs.Records as records;
ghost use Rattle.dsec_wire.specs.Errors.{wants_memory};
ghost use Rattle.dsec_message.specs.MessageSections.{items_of};
ghost use Rattle.dsec_rewrite.specs.Keeping.{place_of};
ghost use Rattle.dsec_rewrite.specs.Rewriting.{kept_of};

use dsec_message::Message;
use dsec_wire::{MessageError, Questions, Records, record_at};
use std::alloc::Global;

/// The questions and the records of the additional section. The records between are read one at a time, and none of them is kept.
pub(crate) fn read_kept(
    alloc: Global,
    message: &Message,
) -> Result<(Questions, Records), MessageError>
    ensures { Reads {Y = List messages.Question × List records.Record} wants_memory (λ read. (read.0, read.1)) result (kept_of message.now) }
{
    let header = message.header();
    let octets = message.as_slice();
    let (question, at) = message.question_and_place(alloc)?;
    let answers_end = passed(alloc, header.ancount(), octets, at)?;
    let authorities_end = passed(alloc, header.nscount(), octets, answers_end)?;
    let additional = records_at(alloc, header.arcount(), octets, authorities_end)?;
    Ok((question, additional))
}

/// The place after so many records from a place on.
fn passed(alloc: Global, count: u16, message: &[u8], start: usize) -> Result<usize, MessageError>
    ensures { Reads {Y = ℕ} wants_memory (λ at. at) result (place_of (many_of (record_of message.now) count start)) }
{
    let mut at = start;
    for _ in 0..count {
        let (_record, after) = record_at(alloc, message, at)?;
        at = after;
    }
    Ok(at)
}

/// So many records from a place on.
fn records_at(
    alloc: Global,
    count: u16,
    message: &[u8],
    start: usize,
) -> Result<Records, MessageError>
    ensures { Reads {Y = List records.Record} wants_memory (λ read. read) result (items_of (many_of (record_of message.now) count start)) }
{
    let mut items = Vec::new(alloc);
    let mut at = start;
    for _ in 0..count {
        let (record, after) = record_at(alloc, message, at)?;
        items.push(record)?;
        at = after;
    }
    Ok(Records::new(items))
}
