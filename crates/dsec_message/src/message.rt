//! Whole messages.

ghost use Rattle.std.specs.Prelude.{◌≡◌, ◌≤◌, ◌↔◌, ◌+◌, ◌*◌, ◌%◌, List, ℕ, Some, length, IsOk, IfOk};
ghost use Rattle.dsec_spec.specs.Messages as messages;
ghost use Rattle.dsec_spec.specs.Messages.{additionals_of, answers_of, authorities_of, header_of, opt_of, questions_of, rcode_of, upper_rcode};
ghost use Rattle.dsec_spec.specs.Reading.{Reads};
ghost use Rattle.dsec_spec.specs.Records as records;
ghost use Rattle.dsec_wire.specs.Errors.{wants_memory};
ghost use Rattle.dsec_message.specs.MessageSections.{SectionsRead, items_of, sections_and_place, sections_of};

use crate::error::ShortMessage;
use crate::header::{Header, header_at};
use crate::opt::first_opt;
use crate::sections::{Sections, read_answers, read_questions, read_sections};
use dsec_name::NoMemory;
use dsec_number::Rcode;
use dsec_wire::{MessageError, Questions, Record, Records, records_at};
use std::alloc::Global;
use std::marker::Model;

/// The octets of a message's header.
const HEADER: usize = 12;

/// A message: its octets, at least a header. What else they say is read when it is asked for, and octets
/// after the last section are passed over. A section can be read only where those before it can.
#[derive(Drop)]
pub struct Message {
    octets: Vec<u8>,
}

impl Model for Message {
    ghost use Rattle.std.specs.Prelude.{List, ℕ, ◌≤◌, length};

    ghost Value = { List ℕ };

    ghost view = { λ it. it.octets.items };

    ghost invariant = { λ it. 12 ≤ length it.octets.items };
}

impl Message {
    /// The message of these octets, as UDP or, after the two octets of a length, TCP carries it.
    pub fn from_octets(octets: Vec<u8>) -> Result<Message, ShortMessage>
        ensures long { IsOk result ↔ (12 ≤ length octets.items) }
        ensures value { IfOk result (λ message. message ≡ octets.items) }
    {
        if octets.len() < HEADER {
            return Err(ShortMessage);
        }
        Ok(Message { octets })
    }

    /// The octets as they came.
    pub fn as_slice(&self) -> &[u8]
        ensures value { result.now ≡ self.now }
        ensures long { 12 ≤ length self.now }
    {
        &self.octets
    }

    /// The header, which each message has.
    pub fn header(&self) -> Header
        ensures { header_of self.now ≡ Some result }
    {
        header_at(self.as_slice())
    }

    /// The questions.
    pub fn question(&self, alloc: Global) -> Result<Questions, MessageError>
        ensures { Reads {Y = List messages.Question} wants_memory (λ read. read) result (items_of (questions_of self.now)) }
    {
        let (question, _) = read_questions(alloc, self.as_slice())?;
        Ok(question)
    }

    /// The questions, and the place after them.
    pub fn question_and_place(&self, alloc: Global) -> Result<(Questions, usize), MessageError>
        ensures { Reads {Y = List messages.Question × ℕ} wants_memory (λ read. (read.0, read.1)) result (questions_of self.now) }
    {
        read_questions(alloc, self.as_slice())
    }

    /// The records of the answer section.
    pub fn answer(&self, alloc: Global) -> Result<Records, MessageError>
        ensures { Reads {Y = List records.Record} wants_memory (λ read. read) result (items_of (answers_of self.now)) }
    {
        let (_, answer, _) = read_answers(alloc, self.as_slice())?;
        Ok(answer)
    }

    /// The records of the authority section.
    pub fn authority(&self, alloc: Global) -> Result<Records, MessageError>
        ensures { Reads {Y = List records.Record} wants_memory (λ read. read) result (items_of (authorities_of self.now)) }
    {
        let (sections, _) = read_sections(alloc, self.as_slice())?;
        Ok(sections.authority)
    }

    /// The records of the additional section.
    pub fn additional(&self, alloc: Global) -> Result<Records, MessageError>
        ensures { Reads {Y = List records.Record} wants_memory (λ read. read) result (items_of (additionals_of self.now)) }
    {
        let message = self.as_slice();
        let count = header_at(message).arcount();
        let (_, at) = read_sections(alloc, message)?;
        let (additional, _) = records_at(alloc, count, message, at)?;
        Ok(additional)
    }

    /// The questions, the answer and the authority section, read in one pass.
    pub fn sections(&self, alloc: Global) -> Result<Sections, MessageError>
        ensures { Reads wants_memory (λ read. read) result (sections_of self.now) }
    {
        let (sections, _) = read_sections(alloc, self.as_slice())?;
        Ok(sections)
    }

    /// The same three sections and the rcode: the OPT record is looked for in what follows them.
    pub fn sections_and_rcode(&self, alloc: Global) -> Result<(Sections, Rcode), MessageError>
        ensures sections { Reads wants_memory (λ read. read.0) result (sections_of self.now) }
        ensures rcode { IfOk result (λ read. rcode_of self.now ≡ Some read.1) }
    {
        let message = self.as_slice();
        let header = header_at(message);
        let (sections, at) = read_sections(alloc, message)?;
        let opt = first_opt(alloc, header.arcount(), message, at)?;
        Ok((sections, rcode_by(header, opt)))
    }

    /// The rcode, where the additional section begins at this place: the header's four bits, below the upper octet of an OPT record
    /// (RFC 6891 6.1.3). Of another place, or of a message whose sections before it can't be read, it says nothing.
    pub fn rcode_before(&self, alloc: Global, at: usize) -> Result<Rcode, NoMemory>
        ensures { (sections : SectionsRead) → sections_and_place self.now ≡ Some sections → sections.1 ≡ at → IfOk result (λ rcode. rcode_of self.now ≡ Some rcode) }
    {
        let message = self.as_slice();
        let header = header_at(message);
        let opt = first_opt(alloc, header.arcount(), message, at)?;
        Ok(rcode_by(header, opt))
    }

    /// The first OPT record of the additional section, where all before it is readable (RFC 6891 6.1.1); else none, as where there is none.
    pub fn opt(&self, alloc: Global) -> Result<Option<Record>, NoMemory>
        ensures { IfOk result (λ found. found ≡ opt_of self.now) }
    {
        let message = self.as_slice();
        let count = header_at(message).arcount();
        if count == 0 {
            return Ok(None);
        }
        let at = match read_sections(alloc, message) {
            Ok((_, at)) => at,
            Err(MessageError::ParseError) => return Ok(None),
            Err(MessageError::NoMemory) => return Err(NoMemory),
        };
        first_opt(alloc, count, message, at)
    }

    /// The rcode: the header's four bits, below the upper octet of an OPT record (RFC 6891 6.1.3).
    pub fn opt_rcode(&self, alloc: Global) -> Result<Rcode, NoMemory>
        ensures { IfOk result (λ rcode. rcode_of self.now ≡ Some rcode) }
    {
        let opt = self.opt(alloc)?;
        Ok(rcode_by(self.header(), opt))
    }
}

/// The rcode that a header and the first OPT record give.
fn rcode_by(header: Header, opt: Option<Record>) -> Rcode
    ensures { result ≡ upper_rcode opt * 16 + header.flags % 16 }
{
    let upper = match opt {
        Some(opt) => (opt.ttl().as_secs() / 0x0100_0000) as u16,
        None => 0,
    };
    Rcode::from_int(upper * 16 + header.flags() % 16)
}
