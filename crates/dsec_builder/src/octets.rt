//! The octets of a message in progress, the header at their front.

ghost use Rattle.std.specs.Prelude.{◌≡◌, ◌↔◌, ◌≤◌, ◌<◌, ◌+◌, ◌++◌, OnOk, OnErr, IsErrOf, length};
ghost use Rattle.dsec_spec.specs.Reading.{u16_at};
ghost use Rattle.dsec_spec.specs.WrittenMessages.{IsWritableQuestion, IsWritableRecord, question_octets, record_octets};
ghost use Rattle.dsec_builder.specs.Building.{number_or_0, raised, with_number};

use crate::error::PushError;
use crate::items::{question_len, record_len, write_question, write_record};
use dsec_wire::{Question, Record};

/// The octets of a message at most, as TCP carries it (RFC 1035 4.2.2).
const MAX_MESSAGE: usize = 65535;

/// Where the header has the number of questions (RFC 1035 4.1.1).
const QUESTIONS: usize = 4;

/// Writes a number of two octets over those that are there.
pub(crate) fn set_number(octets: &mut Vec<u8>, at: usize, number: u16)
    requires { at + 2 ≤ length octets.old.items }
    ensures { octets.new.items ≡ with_number at number octets.old.items }
{
    octets[at..at + 2].copy_from_slice(&number.to_be_bytes());
}

/// Counts one item more.
fn raise(octets: &mut Vec<u8>, at: usize)
    requires there { at + 2 ≤ length octets.old.items }
    requires low { number_or_0 (u16_at octets.old.items at) < 65535 }
    ensures { octets.new.items ≡ raised at octets.old.items }
{
    let count = u16::from_be_bytes([octets[at], octets[at + 1]]);
    set_number(octets, at, count + 1);
}

/// Adds a question and counts it.
pub(crate) fn count_question(octets: &mut Vec<u8>, question: &Question) -> Result<(), PushError>
    requires header { 12 ≤ length octets.old.items }
    requires most { length octets.old.items ≤ 65535 }
    requires low { number_or_0 (u16_at octets.old.items 4) < 65535 }
    ensures ok { OnOk result (octets.new.items ≡ raised 4 (octets.old.items ++ question_octets question.now)) }
    ensures good { OnOk result (IsWritableQuestion question.now) }
    ensures fits { OnOk result (length octets.old.items + length (question_octets question.now) ≤ 65535) }
    ensures err { OnErr result (octets.new.items ≡ octets.old.items) }
    ensures full { IsErrOf result PushError.PushError ↔ (65535 < length octets.old.items + length (question_octets question.now)) }
{
    let start = octets.len();
    if question_len(question) > MAX_MESSAGE - start {
        return Err(PushError::PushError);
    }
    let Ok(()) = write_question(octets, question) else {
        octets.truncate(start);
        return Err(PushError::NoMemory);
    };
    raise(octets, QUESTIONS);
    Ok(())
}

/// Adds a record, and counts it in the section whose number the header has at this place.
pub(crate) fn count_record(
    octets: &mut Vec<u8>,
    count_at: usize,
    item: &Record,
) -> Result<(), PushError>
    requires count_at { count_at + 2 ≤ 12 }
    requires header { 12 ≤ length octets.old.items }
    requires most { length octets.old.items ≤ 65535 }
    requires low { number_or_0 (u16_at octets.old.items count_at) < 65535 }
    ensures ok { OnOk result (octets.new.items ≡ raised count_at (octets.old.items ++ record_octets item.now)) }
    ensures good { OnOk result (IsWritableRecord item.now) }
    ensures fits { OnOk result (length octets.old.items + length (record_octets item.now) ≤ 65535) }
    ensures err { OnErr result (octets.new.items ≡ octets.old.items) }
    ensures full { IsErrOf result PushError.PushError ↔ (65535 < length octets.old.items + length (record_octets item.now)) }
{
    let start = octets.len();
    if record_len(item) > MAX_MESSAGE - start {
        return Err(PushError::PushError);
    }
    let Ok(()) = write_record(octets, item) else {
        octets.truncate(start);
        return Err(PushError::NoMemory);
    };
    raise(octets, count_at);
    Ok(())
}
