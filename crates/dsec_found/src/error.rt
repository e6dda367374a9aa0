//! Why a message isn't judged.

ghost use Rattle.std.specs.Prelude.{◌≡◌};
ghost use Rattle.dsec_found.specs.declared.error.Error.TheVariants as errors;
ghost use Rattle.dsec_found.specs.Errors.{error_of, name_error_of, push_error_of};

use dsec_builder::PushError;
use dsec_message::ShortMessage;
use dsec_name::{NoMemory, PushNameError};
use dsec_wire::MessageError;
use dsec_zonefile::InplaceError;
use std::alloc::{AllocError, AllocFailed};
use thiserror::Error;

/// Why a message isn't judged, or can't be handed on. Of the calls that judge only `FormError`, `ParseError` and `NoMemory` come, and of those
/// that hand on besides `PushError`; the others are for callers that read, build and judge messages by one type of error.
#[derive(Clone, Copy, Debug, PartialEq, Eq, Error)]
pub enum Error {
    /// There isn't one question (RFC 1035 4.1.2).
    #[error("FormError")]
    FormError,
    /// A text of anchors is refused, from this line on (RFC 1035 5.1).
    #[error("InplaceError")]
    InplaceError(InplaceError),
    /// Octets couldn't be converted.
    #[error("OctetsConversion")]
    OctetsConversion,
    /// A question or a record can't be read (RFC 1035 4.1); one of the additional section counts only where the message is to be rewritten.
    #[error("ParseError")]
    ParseError,
    /// A message would pass 65535 octets (RFC 1035 4.2.2).
    #[error("PushError")]
    PushError,
    /// A name would pass 255 octets (RFC 1035 2.3.4).
    #[error("PushNameError")]
    PushNameError,
    /// A read failed.
    #[error("ReadError")]
    ReadError,
    /// The octets are too few for a header (RFC 1035 4.1.1).
    #[error("ShortMEssage")]
    ShortMessage,
    /// There was no memory left, whatever the message.
    #[error("NoMemory")]
    NoMemory,
}

impl From<ShortMessage> for Error {
    ghost from_gives = { λ _ error. error ≡ errors.ShortMessage };

    fn from(_error: ShortMessage) -> Error {
        Error::ShortMessage
    }
}

impl From<MessageError> for Error {
    ghost from_gives = { λ error made. made ≡ error_of error };

    fn from(error: MessageError) -> Error {
        match error {
            MessageError::ParseError => Error::ParseError,
            MessageError::NoMemory => Error::NoMemory,
        }
    }
}

impl From<PushError> for Error {
    ghost from_gives = { λ error made. made ≡ push_error_of error };

    fn from(error: PushError) -> Error {
        match error {
            PushError::PushError => Error::PushError,
            PushError::NoMemory => Error::NoMemory,
        }
    }
}

impl From<PushNameError> for Error {
    ghost from_gives = { λ error made. made ≡ name_error_of error };

    fn from(error: PushNameError) -> Error {
        match error {
            PushNameError::PushNameError => Error::PushNameError,
            PushNameError::NoMemory => Error::NoMemory,
        }
    }
}

impl From<InplaceError> for Error {
    ghost from_gives = { λ error made. made ≡ errors.InplaceError error };

    fn from(error: InplaceError) -> Error {
        Error::InplaceError(error)
    }
}

impl From<NoMemory> for Error {
    ghost from_gives = { λ _ error. error ≡ errors.NoMemory };

    fn from(_error: NoMemory) -> Error {
        Error::NoMemory
    }
}

impl From<AllocError> for Error {
    ghost from_gives = { λ _ error. error ≡ errors.NoMemory };

    fn from(_error: AllocError) -> Error {
        Error::NoMemory
    }
}

impl<T: Drop> From<AllocFailed<T>> for Error {
    ghost from_gives = { λ _ error. error ≡ errors.NoMemory };

    fn from(_error: AllocFailed<T>) -> Error {
        Error::NoMemory
    }
}
