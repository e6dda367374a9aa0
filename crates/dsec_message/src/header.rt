//! The header of a message (RFC 1035 4.1.1).

ghost use Rattle.std.specs.Prelude.{◌≡◌, ◌↔◌, ◌+◌, ◌≤◌, ◌%◌, length, [], ◌∷◌, IsTrue, Some};
ghost use Rattle.dsec_spec.specs.Messages.{header_of};
ghost use Rattle.dsec_spec.specs.Reading.{u16_at as u16_of};

use dsec_number::Rcode;
use dsec_wire::u16_at;
use std::marker::Model;

/// A message's header: its identifier, its flags, and how many questions and records it says to have.
#[derive(Clone, Copy, Debug, PartialEq, Eq)]
pub struct Header {
    id: u16,
    flags: u16,
    questions: u16,
    answers: u16,
    authorities: u16,
    additionals: u16,
}

impl Model for Header {
    ghost use Rattle.dsec_spec.specs.Messages as messages;

    ghost Value = { messages.Header };

    ghost view = { λ it. record { id = it.id; flags = it.flags; questions = it.questions; answers = it.answers; authorities = it.authorities; additionals = it.additionals } };

    ghost inverse = { λ it. record { id = it.id; flags = it.flags; questions = it.questions; answers = it.answers; authorities = it.authorities; additionals = it.additionals } };
}

impl Header {
    /// The flag of data that the server found authentic (RFC 4035 3.2.3).
    pub const AD: u16 = 0x0020;

    /// The flag that asks for data unchecked (RFC 4035 3.2.2).
    pub const CD: u16 = 0x0010;

    /// The identifier, which an answer repeats.
    pub fn id(self) -> u16
        ensures { result ≡ self.id }
    {
        self.id
    }

    /// The flags, with the opcode and the rcode's last four bits among them.
    pub fn flags(self) -> u16
        ensures { result ≡ self.flags }
    {
        self.flags
    }

    /// The rcode's last four bits; `Message::opt_rcode` has all twelve.
    pub fn rcode(self) -> Rcode
        ensures { result ≡ self.flags % 16 }
    {
        Rcode::from_int(self.flags % 16)
    }

    /// How many questions there are to be.
    pub fn qdcount(self) -> u16
        ensures { result ≡ self.questions }
    {
        self.questions
    }

    /// How many records the answer section is to have.
    pub fn ancount(self) -> u16
        ensures { result ≡ self.answers }
    {
        self.answers
    }

    /// How many records the authority section is to have.
    pub fn nscount(self) -> u16
        ensures { result ≡ self.authorities }
    {
        self.authorities
    }

    /// How many records the additional section is to have.
    pub fn arcount(self) -> u16
        ensures { result ≡ self.additionals }
    {
        self.additionals
    }
}

/// The header of octets that have one.
pub(crate) fn header_at(message: &[u8]) -> Header
    requires { 12 ≤ length message.now }
    ensures { header_of message.now ≡ Some result }
{
    Header {
        id: number_at(message, 0),
        flags: number_at(message, 2),
        questions: number_at(message, 4),
        answers: number_at(message, 6),
        authorities: number_at(message, 8),
        additionals: number_at(message, 10),
    }
}

/// A number of two octets that are there.
fn number_at(message: &[u8], at: usize) -> u16
    requires { at + 2 ≤ length message.now }
    ensures { u16_of message.now at ≡ Some result }
{
    u16_at(message, at).unwrap_or(0)
}

/// `==` on headers is equality of all six numbers.
pub fn law_of_equal_headers(header: Header, other: Header) -> bool
    ensures { IsTrue result ↔ (header ≡ other) }
{
    header == other
}

/// The bits AD and CD of a header's flags (RFC 6895 2.1).
pub fn law_of_flags() -> [u16; 2]
    ensures { result ≡ 32 ∷ 16 ∷ [] }
{
    [Header::AD, Header::CD]
}
