//! The questions and records at a place of a message (RFC 1035 4.1.2, 4.1.3).

ghost use Rattle.std.specs.Prelude.{◌≡◌, ◌≤◌, List, ℕ, length, IfOk};
ghost use Rattle.dsec_spec.specs.Messages as messages;
ghost use Rattle.dsec_spec.specs.Messages.{question_at as question_of, record_at as record_of};
ghost use Rattle.dsec_spec.specs.Reading.{Reads, many_of};
ghost use Rattle.dsec_spec.specs.Records as records;
ghost use Rattle.dsec_wire.specs.Errors.{wants_memory};
ghost use Rattle.dsec_wire.specs.RecordHeads.{record_head};

use crate::data::Data;
use crate::data_reading::data_octets_at;
use crate::error::MessageError;
use crate::lists::{Questions, Records};
use crate::names::name_at;
use crate::numbers::{u16_at, u32_at};
use crate::record::{Question, Record};
use dsec_name::Octets;
use dsec_number::{Class, Rtype, Ttl};
use std::alloc::Global;

/// What stands between a record's owner and its data (RFC 1035 4.1.3).
#[derive(Clone, Copy)]
pub(crate) struct RecordHead {
    rtype: Rtype,
    class: Class,
    ttl: Ttl,
    size: u16,
}

/// The 10 octets between a record's owner and its data.
fn record_head_at(message: &[u8], at: usize) -> Option<RecordHead>
    requires { at ≤ length message.now }
    ensures { result ≡ record_head message.now at }
{
    Some(RecordHead {
        rtype: Rtype::from_int(u16_at(message, at)?),
        class: Class::from_int(u16_at(message, at + 2)?),
        ttl: Ttl::from_secs(u32_at(message, at + 4)?),
        size: u16_at(message, at + 8)?,
    })
}

/// The record at a place, and the place after it.
pub fn record_at(
    alloc: Global,
    message: &[u8],
    start: usize,
) -> Result<(Record, usize), MessageError>
    ensures exact { Reads {Y = records.Record × ℕ} wants_memory (λ read. (read.0, read.1)) result (record_of message.now start) }
    ensures within { IfOk result (λ read. read.1 ≤ length message.now) }
{
    let (owner, at) = name_at(alloc, message, start)?;
    let Some(head) = record_head_at(message, at) else {
        return Err(MessageError::ParseError);
    };
    let begin = at + 10;
    let end = begin + usize::from(head.size);
    if message.len() < end {
        return Err(MessageError::ParseError);
    }
    let octets = data_octets_at(alloc, head.rtype, message, begin, end)?;
    let rdata = Data::new(head.rtype, Octets::new(octets));
    Ok((Record::new(owner, head.class, head.ttl, rdata), end))
}

/// The question at a place, and the place after it.
#[tactic(auto, unfolding(dsec_spec::specs::Messages::question_at))]
pub(crate) fn question_at(
    alloc: Global,
    message: &[u8],
    start: usize,
) -> Result<(Question, usize), MessageError>
    ensures { Reads {Y = messages.Question × ℕ} wants_memory (λ read. (read.0, read.1)) result (question_of message.now start) }
{
    let (qname, at) = name_at(alloc, message, start)?;
    let qtype = u16_at(message, at).ok_or(MessageError::ParseError)?;
    let qclass = u16_at(message, at + 2).ok_or(MessageError::ParseError)?;
    let (qtype, qclass) = (Rtype::from_int(qtype), Class::from_int(qclass));
    Ok((Question::new(qname, qtype, qclass), at + 4))
}

/// So many records from a place on, and the place after them (RFC 1035 4.1.3). `ParseError` where one can't be read: its name, what stands
/// between name and data, or data that its type doesn't allow.
pub fn records_at(
    alloc: Global,
    count: u16,
    message: &[u8],
    start: usize,
) -> Result<(Records, usize), MessageError>
    ensures { Reads {Y = List records.Record × ℕ} wants_memory (λ read. (read.0, read.1)) result (many_of (record_of message.now) count start) }
{
    let mut items = Vec::new(alloc);
    let mut at = start;
    for _ in 0..count {
        let (record, after) = record_at(alloc, message, at)?;
        items.push(record)?;
        at = after;
    }
    Ok((Records::new(items), at))
}

/// So many questions from a place on, and the place after them (RFC 1035 4.1.2). `ParseError` where one can't be read.
pub fn questions_at(
    alloc: Global,
    count: u16,
    message: &[u8],
    start: usize,
) -> Result<(Questions, usize), MessageError>
    ensures { Reads {Y = List messages.Question × ℕ} wants_memory (λ read. (read.0, read.1)) result (many_of (question_of message.now) count start) }
{
    let mut items = Vec::new(alloc);
    let mut at = start;
    for _ in 0..count {
        let (question, after) = question_at(alloc, message, at)?;
        items.push(question)?;
        at = after;
    }
    Ok((Questions::new(items), at))
}
