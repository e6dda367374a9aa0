//! What is refused, and the want of memory.

ghost use Rattle.std.specs.Prelude.{◌≡◌, Some};
ghost use Rattle.dsec_wire.specs.declared.error.MessageError.TheVariants.{NoMemory};
ghost use Rattle.dsec_wire.specs.Errors.{message_error_text};

use std::alloc::{AllocError, AllocFailed};
use std::fmt;

/// Why nothing was read.
#[derive(Clone, Copy, Debug, PartialEq, Eq)]
pub enum MessageError {
    /// The octets are not what the grammar says (RFC 1035 4.1).
    ParseError,
    /// There was no memory left, whatever the octets.
    NoMemory,
}

impl fmt::Display for MessageError {
    ghost output = { λ error. Some (message_error_text error) };

    fn fmt<W: fmt::Write>(&self, f: &mut fmt::Formatter<W>) -> fmt::Result {
        f.write_str(match self {
            MessageError::ParseError => "ParseError",
            MessageError::NoMemory => "out of memory",
        })
    }
}

impl From<AllocError> for MessageError {
    ghost from_gives = { λ _ error. error ≡ NoMemory };

    fn from(_error: AllocError) -> MessageError {
        MessageError::NoMemory
    }
}

impl<T: Drop> From<AllocFailed<T>> for MessageError {
    ghost from_gives = { λ _ error. error ≡ NoMemory };

    fn from(_error: AllocFailed<T>) -> MessageError {
        MessageError::NoMemory
    }
}

impl From<dsec_name::NoMemory> for MessageError {
    ghost from_gives = { λ _ error. error ≡ NoMemory };

    fn from(_error: dsec_name::NoMemory) -> MessageError {
        MessageError::NoMemory
    }
}
