//! The builder of a message, and of its questions (RFC 1035 4.1).

ghost use Rattle.std.specs.Prelude.{◌≡◌, ◌↔◌, ◌<◌, ◌+◌, IfOk, OnOk, OnErr, IsErrOf, length};
ghost use Rattle.dsec_spec.specs.WrittenMessages.{message_octets, question_octets};
ghost use Rattle.dsec_builder.specs.Building.{IsMessageOf, nothing_written, with_flags, with_id, with_question};

use crate::building::{empty_message, finished, push_question, set_flags, set_id};
use crate::error::PushError;
use crate::sections::{AdditionalBuilder, AnswerBuilder, AuthorityBuilder};
use dsec_message::Message;
use dsec_name::NoMemory;
use dsec_wire::Question;
use std::alloc::Global;
use std::marker::Model;

/// A message that is built from its front to its end: questions, then the records of each section. A clause sees
/// what was written so far. Names are written uncompressed and keep their letters.
#[derive(Drop)]
pub struct MessageBuilder {
    octets: Vec<u8>,
}

impl Model for MessageBuilder {
    ghost use Rattle.dsec_spec.specs.WrittenMessages.{Written};
    ghost use Rattle.dsec_builder.specs.Building.{EndsInQuestions, read_back};

    ghost Value = { Written };

    ghost view = { λ it. read_back it.octets.items };

    ghost invariant = { λ it. EndsInQuestions it.octets.items };
}

impl MessageBuilder {
    /// A message with no item, whose identifier and flags are 0.
    #[tactic(auto, using(crate::proofs::BuildingLemmas::ends_in_questions))]
    pub fn new(alloc: Global) -> Result<MessageBuilder, NoMemory>
        ensures { IfOk result (λ it. it ≡ nothing_written) }
    {
        let octets = empty_message(alloc)?;
        Ok(MessageBuilder { octets })
    }

    /// Sets the identifier.
    #[tactic(auto, using(crate::proofs::BuildingLemmas::ends_in_questions))]
    pub fn set_id(&mut self, id: u16)
        ensures { self.new ≡ with_id self.old id }
    {
        set_id(&mut self.octets, id);
    }

    /// Sets the flags, with the opcode and the rcode's last four bits among them.
    #[tactic(auto, using(crate::proofs::BuildingLemmas::ends_in_questions))]
    pub fn set_flags(&mut self, flags: u16)
        ensures { self.new ≡ with_flags self.old flags }
    {
        set_flags(&mut self.octets, flags);
    }

    /// Goes on to the questions.
    pub fn question(self) -> QuestionBuilder
        ensures { result ≡ self }
    {
        QuestionBuilder {
            octets: self.octets,
        }
    }

    /// Goes on to the answer section.
    pub fn answer(self) -> AnswerBuilder
        ensures { result ≡ self }
    {
        AnswerBuilder {
            octets: self.octets,
        }
    }

    /// Goes on to the authority section.
    pub fn authority(self) -> AuthorityBuilder
        ensures { result ≡ self }
    {
        AuthorityBuilder {
            octets: self.octets,
        }
    }

    /// Goes on to the additional section.
    pub fn additional(self) -> AdditionalBuilder
        ensures { result ≡ self }
    {
        AdditionalBuilder {
            octets: self.octets,
        }
    }

    /// The message.
    pub fn finish(self) -> Message
        ensures { IsMessageOf self result }
    {
        finished(self.octets)
    }
}

/// A message to which questions are added.
#[derive(Drop)]
pub struct QuestionBuilder {
    octets: Vec<u8>,
}

impl Model for QuestionBuilder {
    ghost use Rattle.dsec_spec.specs.WrittenMessages.{Written};
    ghost use Rattle.dsec_builder.specs.Building.{EndsInQuestions, read_back};

    ghost Value = { Written };

    ghost view = { λ it. read_back it.octets.items };

    ghost invariant = { λ it. EndsInQuestions it.octets.items };
}

impl QuestionBuilder {
    /// Adds a question. After a refusal the message is as it was before.
    #[tactic(auto, using(crate::proofs::BuildingLemmas::ends_in_questions))]
    pub fn push(&mut self, question: &Question) -> Result<(), PushError>
        ensures ok { OnOk result (self.new ≡ with_question self.old question.now) }
        ensures err { OnErr result (self.new ≡ self.old) }
        ensures full { IsErrOf result PushError.PushError ↔ (65535 < length (message_octets self.old) + length (question_octets question.now)) }
    {
        push_question(&mut self.octets, question)
    }

    /// Sets the identifier.
    #[tactic(auto, using(crate::proofs::BuildingLemmas::ends_in_questions))]
    pub fn set_id(&mut self, id: u16)
        ensures { self.new ≡ with_id self.old id }
    {
        set_id(&mut self.octets, id);
    }

    /// Sets the flags, with the opcode and the rcode's last four bits among them.
    #[tactic(auto, using(crate::proofs::BuildingLemmas::ends_in_questions))]
    pub fn set_flags(&mut self, flags: u16)
        ensures { self.new ≡ with_flags self.old flags }
    {
        set_flags(&mut self.octets, flags);
    }

    /// Goes on to the answer section.
    pub fn answer(self) -> AnswerBuilder
        ensures { result ≡ self }
    {
        AnswerBuilder {
            octets: self.octets,
        }
    }

    /// Goes on to the authority section.
    pub fn authority(self) -> AuthorityBuilder
        ensures { result ≡ self }
    {
        AuthorityBuilder {
            octets: self.octets,
        }
    }

    /// Goes on to the additional section.
    pub fn additional(self) -> AdditionalBuilder
        ensures { result ≡ self }
    {
        AdditionalBuilder {
            octets: self.octets,
        }
    }

    /// The message.
    pub fn finish(self) -> Message
        ensures { IsMessageOf self result }
    {
        finished(self.octets)
    }
}
