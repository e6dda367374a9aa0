//! Why a message isn't rewritten.

ghost use Rattle.std.specs.Prelude.{◌≡◌};
ghost use Rattle.dsec_rewrite.specs.declared.error.RewriteError.TheVariants as errors;
ghost use Rattle.dsec_rewrite.specs.Errors.{by_message, by_push};

use dsec_name::NoMemory;
use dsec_wire::MessageError;
use thiserror::Error;

/// Why a message isn't rewritten. It is as it came.
#[derive(Clone, Copy, Debug, PartialEq, Eq, Error)]
pub enum RewriteError {
    /// A record of the additional section can't be read, or an item before it (RFC 1035 4.1).
    #[error("ParseError")]
    ParseError,
    /// The message would pass 65535 octets (RFC 1035 4.2.2).
    #[error("PushError")]
    PushError,
    /// There was no memory left, whatever the message.
    #[error("out of memory")]
    NoMemory,
}

impl From<MessageError> for RewriteError {
    ghost from_gives = { λ error made. made ≡ by_message error };

    fn from(error: MessageError) -> RewriteError {
        match error {
            MessageError::ParseError => RewriteError::ParseError,
            MessageError::NoMemory => RewriteError::NoMemory,
        }
    }
}

impl From<dsec_builder::PushError> for RewriteError {
    ghost from_gives = { λ error made. made ≡ by_push error };

    fn from(error: dsec_builder::PushError) -> RewriteError {
        match error {
            dsec_builder::PushError::PushError => RewriteError::PushError,
            dsec_builder::PushError::NoMemory => RewriteError::NoMemory,
        }
    }
}

impl From<NoMemory> for RewriteError {
    ghost from_gives = { λ _ error. error ≡ errors.NoMemory };

    fn from(_error: NoMemory) -> RewriteError {
        RewriteError::NoMemory
    }
}
