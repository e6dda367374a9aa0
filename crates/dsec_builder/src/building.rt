//! What is done to the octets of a message in progress, in terms of what they say.

ghost use Rattle.std.specs.Prelude.{◌≡◌, ◌↔◌, ◌<◌, ◌+◌, IfOk, OnOk, OnErr, IsErrOf, length};
ghost use Rattle.dsec_spec.specs.WrittenMessages.{question_octets, record_octets};
ghost use Rattle.dsec_builder.specs.Building.{EndsInAnswers, EndsInAuthorities, EndsInQuestions, IsBuilt, IsMessageOf, Says, nothing_written, read_back, with_additional, with_answer, with_authority, with_flags, with_id, with_question};

use crate::error::PushError;
use crate::octets::{count_question, count_record, set_number};
use dsec_message::Message;
use dsec_name::NoMemory;
use dsec_wire::{Question, Record};
use std::alloc::Global;

/// Where the header has its numbers (RFC 1035 4.1.1).
const ID: usize = 0;

const FLAGS: usize = 2;

const ANSWERS: usize = 6;

const AUTHORITIES: usize = 8;

const ADDITIONALS: usize = 10;

/// The octets of a message with no item.
pub(crate) fn empty_message(alloc: Global) -> Result<Vec<u8>, NoMemory>
    ensures { IfOk result (λ octets. Says octets.items nothing_written) }
{
    Ok(Vec::from_slice(alloc, &[0; 12])?)
}

/// Sets the identifier.
pub(crate) fn set_id(octets: &mut Vec<u8>, id: u16)
    requires { IsBuilt octets.old.items }
    ensures { Says octets.new.items (with_id (read_back octets.old.items) id) }
{
    set_number(octets, ID, id);
}

/// Sets the flags.
pub(crate) fn set_flags(octets: &mut Vec<u8>, flags: u16)
    requires { IsBuilt octets.old.items }
    ensures { Says octets.new.items (with_flags (read_back octets.old.items) flags) }
{
    set_number(octets, FLAGS, flags);
}

/// Adds a question.
pub(crate) fn push_question(octets: &mut Vec<u8>, question: &Question) -> Result<(), PushError>
    requires { EndsInQuestions octets.old.items }
    ensures ok { OnOk result (Says octets.new.items (with_question (read_back octets.old.items) question.now)) }
    ensures err { OnErr result (octets.new.items ≡ octets.old.items) }
    ensures full { IsErrOf result PushError.PushError ↔ (65535 < length octets.old.items + length (question_octets question.now)) }
{
    count_question(octets, question)
}

/// Adds a record to the answer section.
pub(crate) fn push_answer(octets: &mut Vec<u8>, answer: &Record) -> Result<(), PushError>
    requires { EndsInAnswers octets.old.items }
    ensures ok { OnOk result (Says octets.new.items (with_answer (read_back octets.old.items) answer.now)) }
    ensures err { OnErr result (octets.new.items ≡ octets.old.items) }
    ensures full { IsErrOf result PushError.PushError ↔ (65535 < length octets.old.items + length (record_octets answer.now)) }
{
    count_record(octets, ANSWERS, answer)
}

/// Adds a record to the authority section.
pub(crate) fn push_authority(octets: &mut Vec<u8>, authority: &Record) -> Result<(), PushError>
    requires { EndsInAuthorities octets.old.items }
    ensures ok { OnOk result (Says octets.new.items (with_authority (read_back octets.old.items) authority.now)) }
    ensures err { OnErr result (octets.new.items ≡ octets.old.items) }
    ensures full { IsErrOf result PushError.PushError ↔ (65535 < length octets.old.items + length (record_octets authority.now)) }
{
    count_record(octets, AUTHORITIES, authority)
}

/// Adds a record to the additional section.
pub(crate) fn push_additional(octets: &mut Vec<u8>, additional: &Record) -> Result<(), PushError>
    requires { IsBuilt octets.old.items }
    ensures ok { OnOk result (Says octets.new.items (with_additional (read_back octets.old.items) additional.now)) }
    ensures err { OnErr result (octets.new.items ≡ octets.old.items) }
    ensures full { IsErrOf result PushError.PushError ↔ (65535 < length octets.old.items + length (record_octets additional.now)) }
{
    count_record(octets, ADDITIONALS, additional)
}

/// The message that the octets are.
pub(crate) fn finished(octets: Vec<u8>) -> Message
    requires { IsBuilt octets.items }
    ensures { IsMessageOf (read_back octets.items) result }
{
    Message::from_octets(octets).unwrap()
}
