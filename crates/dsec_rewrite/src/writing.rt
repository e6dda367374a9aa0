//! A message, written item for item (RFC 1035 4.1).

ghost use Rattle.std.specs.Prelude.{◌≡◌, ◌<◌, ◌+◌, IfOk, OnOk, IsErrOf, length, map};
ghost use Rattle.dsec_spec.specs.WrittenMessages.{message_octets};
ghost use Rattle.dsec_builder.specs.Building.{IsMessageOf};
ghost use Rattle.dsec_rewrite.specs.Rewriting.{made_of};
ghost use Rattle.dsec_rewrite.specs.Views.{bounded_view};
ghost use Rattle.dsec_rewrite.specs.Writing.{asked_octets, octets_of, with_additionals, with_questions};

use crate::answers::push_answers;
use crate::authorities::push_authorities;
use crate::bounded::BoundedGroup;
use dsec_builder::{AdditionalBuilder, MessageBuilder, PushError, QuestionBuilder};
use dsec_message::{Header, Message};
use dsec_wire::{Question, Record};
use std::alloc::Global;

/// The message with the identifier and flags of a header, of these questions, groups and additional records.
pub(crate) fn written(
    alloc: Global,
    header: Header,
    questions: &[Question],
    answers: &[BoundedGroup<'_>],
    authorities: &[BoundedGroup<'_>],
    additionals: &[Record],
) -> Result<Message, PushError>
    ensures ok { IfOk result (λ message. IsMessageOf (made_of header (questions.now, additionals.now) (map bounded_view answers.now) (map bounded_view authorities.now)) message) }
    ensures full { IsErrOf result PushError.PushError → 65535 < length (message_octets (made_of header (questions.now, additionals.now) (map bounded_view answers.now) (map bounded_view authorities.now))) }
{
    let mut builder = MessageBuilder::new(alloc)?;
    builder.set_id(header.id());
    builder.set_flags(header.flags());
    let mut builder = builder.question();
    push_questions(&mut builder, questions)?;
    let mut builder = builder.answer();
    push_answers(&mut builder, answers)?;
    let mut builder = builder.authority();
    push_authorities(&mut builder, authorities)?;
    let mut builder = builder.additional();
    push_additionals(&mut builder, additionals)?;
    Ok(builder.finish())
}

/// Adds questions.
fn push_questions(builder: &mut QuestionBuilder, questions: &[Question]) -> Result<(), PushError>
    ensures ok { OnOk result (builder.new ≡ with_questions builder.old questions.now) }
    ensures full { IsErrOf result PushError.PushError → 65535 < length (message_octets builder.old) + length (asked_octets questions.now) }
{
    for one in questions {
        builder.push(one)?;
    }
    Ok(())
}

/// Adds records to the additional section.
fn push_additionals(
    builder: &mut AdditionalBuilder,
    additionals: &[Record],
) -> Result<(), PushError>
    ensures ok { OnOk result (builder.new ≡ with_additionals builder.old additionals.now) }
    ensures full { IsErrOf result PushError.PushError → 65535 < length (message_octets builder.old) + length (octets_of additionals.now) }
{
    for one in additionals {
        builder.push(one)?;
    }
    Ok(())
}
