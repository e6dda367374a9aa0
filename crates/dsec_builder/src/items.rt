//! Questions and records as they are written (RFC 1035 4.1.2, 4.1.3).

ghost use Rattle.std.specs.Prelude.{◌≡◌, ◌≤◌, ◌++◌, OnOk, OnErr, length, take};
ghost use Rattle.dsec_spec.specs.WrittenMessages.{IsWritableQuestion, IsWritableRecord, question_octets, record_octets};

use dsec_name::NoMemory;
use dsec_wire::{Question, Record};

/// How many octets a question has.
pub(crate) fn question_len(question: &Question) -> usize
    ensures { result ≡ length (question_octets question.now) }
{
    question.qname().wire_len() + 4
}

/// How many octets a record has.
pub(crate) fn record_len(item: &Record) -> usize
    ensures { result ≡ length (record_octets item.now) }
{
    item.owner().wire_len() + 10 + item.rdata().octets().len()
}

/// Adds a question. Where memory is wanting, a part of it may be there.
pub(crate) fn write_question(out: &mut Vec<u8>, question: &Question) -> Result<(), NoMemory>
    ensures ok { OnOk result (out.new.items ≡ out.old.items ++ question_octets question.now) }
    ensures good { OnOk result (IsWritableQuestion question.now) }
    ensures err { OnErr result (take (length out.old.items) out.new.items ≡ out.old.items) }
{
    question.qname().compose(out)?;
    let [rtype_high, rtype_low] = question.qtype().to_int().to_be_bytes();
    let [class_high, class_low] = question.qclass().to_int().to_be_bytes();
    out.extend_from_slice(&[rtype_high, rtype_low, class_high, class_low])?;
    Ok(())
}

/// Adds a record. Where memory is wanting, a part of it may be there.
pub(crate) fn write_record(out: &mut Vec<u8>, item: &Record) -> Result<(), NoMemory>
    ensures ok { OnOk result (out.new.items ≡ out.old.items ++ record_octets item.now) }
    ensures good { OnOk result (IsWritableRecord item.now) }
    ensures err { OnErr result (take (length out.old.items) out.new.items ≡ out.old.items) }
{
    let octets = item.rdata().octets();
    item.owner().compose(out)?;
    out.extend_from_slice(&item.rtype().to_int().to_be_bytes())?;
    out.extend_from_slice(&item.class().to_int().to_be_bytes())?;
    out.extend_from_slice(&item.ttl().as_secs().to_be_bytes())?;
    out.extend_from_slice(&(octets.len() as u16).to_be_bytes())?;
    out.extend_from_slice(octets.as_slice())?;
    Ok(())
}
