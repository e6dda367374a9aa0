//! The builders of the sections of records (RFC 1035 4.1).

ghost use Rattle.std.specs.Prelude.{◌≡◌, ◌↔◌, ◌<◌, ◌+◌, OnOk, OnErr, IsErrOf, length};
ghost use Rattle.dsec_spec.specs.WrittenMessages.{message_octets, record_octets};
ghost use Rattle.dsec_builder.specs.Building.{IsMessageOf, with_additional, with_answer, with_authority, with_flags, with_id};

use crate::building::{finished, push_additional, push_answer, push_authority, set_flags, set_id};
use crate::error::PushError;
use dsec_message::Message;
use dsec_wire::Record;
use std::marker::Model;

/// A message to whose answer section records are added.
#[derive(Drop)]
pub struct AnswerBuilder {
    pub(crate) octets: Vec<u8>,
}

impl Model for AnswerBuilder {
    ghost use Rattle.dsec_spec.specs.WrittenMessages.{Written};
    ghost use Rattle.dsec_builder.specs.Building.{EndsInAnswers, read_back};

    ghost Value = { Written };

    ghost view = { λ it. read_back it.octets.items };

    ghost invariant = { λ it. EndsInAnswers it.octets.items };
}

impl AnswerBuilder {
    /// Adds a record to the answer section. After a refusal the message is as it was before.
    #[tactic(auto, using(crate::proofs::BuildingLemmas::ends_in_answers))]
    pub fn push(&mut self, answer: &Record) -> Result<(), PushError>
        ensures ok { OnOk result (self.new ≡ with_answer self.old answer.now) }
        ensures err { OnErr result (self.new ≡ self.old) }
        ensures full { IsErrOf result PushError.PushError ↔ (65535 < length (message_octets self.old) + length (record_octets answer.now)) }
    {
        push_answer(&mut self.octets, answer)
    }

    /// Sets the identifier.
    #[tactic(auto, using(crate::proofs::BuildingLemmas::ends_in_answers))]
    pub fn set_id(&mut self, id: u16)
        ensures { self.new ≡ with_id self.old id }
    {
        set_id(&mut self.octets, id);
    }

    /// Sets the flags, with the opcode and the rcode's last four bits among them.
    #[tactic(auto, using(crate::proofs::BuildingLemmas::ends_in_answers))]
    pub fn set_flags(&mut self, flags: u16)
        ensures { self.new ≡ with_flags self.old flags }
    {
        set_flags(&mut self.octets, flags);
    }

    /// Goes on to the authority section.
    pub fn authority(self) -> AuthorityBuilder
        ensures { result ≡ self }
    {
        AuthorityBuilder {
            octets: self.octets,
        }
    }

    /// Goes on to the additional section.
    pub fn additional(self) -> AdditionalBuilder
        ensures { result ≡ self }
    {
        AdditionalBuilder {
            octets: self.octets,
        }
    }

    /// The message.
    pub fn finish(self) -> Message
        ensures { IsMessageOf self result }
    {
        finished(self.octets)
    }
}

/// A message to whose authority section records are added.
#[derive(Drop)]
pub struct AuthorityBuilder {
    pub(crate) octets: Vec<u8>,
}

impl Model for AuthorityBuilder {
    ghost use Rattle.dsec_spec.specs.WrittenMessages.{Written};
    ghost use Rattle.dsec_builder.specs.Building.{EndsInAuthorities, read_back};

    ghost Value = { Written };

    ghost view = { λ it. read_back it.octets.items };

    ghost invariant = { λ it. EndsInAuthorities it.octets.items };
}

impl AuthorityBuilder {
    /// Adds a record to the authority section. After a refusal the message is as it was before.
    #[tactic(auto, using(crate::proofs::BuildingLemmas::ends_in_authorities))]
    pub fn push(&mut self, authority: &Record) -> Result<(), PushError>
        ensures ok { OnOk result (self.new ≡ with_authority self.old authority.now) }
        ensures err { OnErr result (self.new ≡ self.old) }
        ensures full { IsErrOf result PushError.PushError ↔ (65535 < length (message_octets self.old) + length (record_octets authority.now)) }
    {
        push_authority(&mut self.octets, authority)
    }

    /// Sets the identifier.
    #[tactic(auto, using(crate::proofs::BuildingLemmas::ends_in_authorities))]
    pub fn set_id(&mut self, id: u16)
        ensures { self.new ≡ with_id self.old id }
    {
        set_id(&mut self.octets, id);
    }

    /// Sets the flags, with the opcode and the rcode's last four bits among them.
    #[tactic(auto, using(crate::proofs::BuildingLemmas::ends_in_authorities))]
    pub fn set_flags(&mut self, flags: u16)
        ensures { self.new ≡ with_flags self.old flags }
    {
        set_flags(&mut self.octets, flags);
    }

    /// Goes on to the additional section.
    pub fn additional(self) -> AdditionalBuilder
        ensures { result ≡ self }
    {
        AdditionalBuilder {
            octets: self.octets,
        }
    }

    /// The message.
    pub fn finish(self) -> Message
        ensures { IsMessageOf self result }
    {
        finished(self.octets)
    }
}

/// A message to whose additional section records are added.
#[derive(Drop)]
pub struct AdditionalBuilder {
    pub(crate) octets: Vec<u8>,
}

impl Model for AdditionalBuilder {
    ghost use Rattle.dsec_spec.specs.WrittenMessages.{Written};
    ghost use Rattle.dsec_builder.specs.Building.{IsBuilt, read_back};

    ghost Value = { Written };

    ghost view = { λ it. read_back it.octets.items };

    ghost invariant = { λ it. IsBuilt it.octets.items };
}

impl AdditionalBuilder {
    /// Adds a record to the additional section. After a refusal the message is as it was before.
    pub fn push(&mut self, additional: &Record) -> Result<(), PushError>
        ensures ok { OnOk result (self.new ≡ with_additional self.old additional.now) }
        ensures err { OnErr result (self.new ≡ self.old) }
        ensures full { IsErrOf result PushError.PushError ↔ (65535 < length (message_octets self.old) + length (record_octets additional.now)) }
    {
        push_additional(&mut self.octets, additional)
    }

    /// Sets the identifier.
    pub fn set_id(&mut self, id: u16)
        ensures { self.new ≡ with_id self.old id }
    {
        set_id(&mut self.octets, id);
    }

    /// Sets the flags, with the opcode and the rcode's last four bits among them.
    pub fn set_flags(&mut self, flags: u16)
        ensures { self.new ≡ with_flags self.old flags }
    {
        set_flags(&mut self.octets, flags);
    }

    /// The message.
    pub fn finish(self) -> Message
        ensures { IsMessageOf self result }
    {
        finished(self.octets)
    }
}
