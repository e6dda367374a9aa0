//! The sections of a message, each read after those before it (RFC 1035 4.1).

ghost use Rattle.std.specs.Prelude.{◌≡◌, ◌≤◌, List, ℕ, length};
ghost use Rattle.dsec_spec.specs.Messages as messages;
ghost use Rattle.dsec_spec.specs.Messages.{questions_of};
ghost use Rattle.dsec_spec.specs.Reading.{Reads};
ghost use Rattle.dsec_wire.specs.Errors.{wants_memory};
ghost use Rattle.dsec_message.specs.MessageSections.{AnswersRead, SectionsRead, questions_and_answers, sections_and_place};

use crate::header::header_at;
use dsec_wire::{MessageError, Questions, Records, questions_at, records_at};
use std::alloc::Global;

/// The questions of a message, and the records of its answer and authority sections.
#[derive(Drop)]
pub struct Sections {
    /// The questions.
    pub question: Questions,
    /// The records of the answer section.
    pub answer: Records,
    /// The records of the authority section.
    pub authority: Records,
}

/// The questions, and the place after them.
#[tactic(auto, unfolding(dsec_spec::specs::Messages::questions_of))]
pub(crate) fn read_questions(
    alloc: Global,
    message: &[u8],
) -> Result<(Questions, usize), MessageError>
    requires { 12 ≤ length message.now }
    ensures { Reads {Y = List messages.Question × ℕ} wants_memory (λ read. (read.0, read.1)) result (questions_of message.now) }
{
    questions_at(alloc, header_at(message).qdcount(), message, 12)
}

/// The questions, the records of the answer section, and the place after them.
pub(crate) fn read_answers(
    alloc: Global,
    message: &[u8],
) -> Result<(Questions, Records, usize), MessageError>
    requires { 12 ≤ length message.now }
    ensures { Reads {Y = AnswersRead} wants_memory (λ read. (read.0, read.1, read.2)) result (questions_and_answers message.now) }
{
    let (question, at) = read_questions(alloc, message)?;
    let (answer, at) = records_at(alloc, header_at(message).ancount(), message, at)?;
    Ok((question, answer, at))
}

/// The first three sections, and the place after them.
pub(crate) fn read_sections(
    alloc: Global,
    message: &[u8],
) -> Result<(Sections, usize), MessageError>
    requires { 12 ≤ length message.now }
    ensures { Reads {Y = SectionsRead} wants_memory (λ read. (read.0, read.1)) result (sections_and_place message.now) }
{
    let (question, answer, at) = read_answers(alloc, message)?;
    let (authority, at) = records_at(alloc, header_at(message).nscount(), message, at)?;
    Ok((
        Sections {
            question,
            answer,
            authority,
        },
        at,
    ))
}
