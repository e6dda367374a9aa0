//! What comes of a message.

ghost use Rattle.std.specs.Prelude.{◌≡◌, Some, Ok, Err, IfOk};
ghost use Rattle.dsec_answer.specs.Told as outcomes;
ghost use Rattle.dsec_answer.specs.Told.{CanBeTold};

use dsec_context::{Error, Verdict};
use dsec_crypto::Verifier;
use dsec_name::NoMemory;
use std::marker::Model;

/// Why a message has no verdict.
#[derive(Clone, Copy, Debug, PartialEq, Eq)]
pub enum Unjudged {
    /// It has fewer octets than a header (RFC 1035 4.1.1).
    ShortMessage,
    /// There isn't one question (RFC 1035 4.1.2).
    FormError,
    /// A question, or a record of the answer or authority section, can't be read; or one of the additional section, where the message was to
    /// be rewritten (RFC 1035 4.1).
    ParseError,
    /// The message was to be rewritten, and would pass 65535 octets (RFC 1035 4.2.2).
    PushError,
}

/// What came of a message: a verdict, or why there is none.
#[derive(Drop)]
pub struct Outcome<V: Verifier> {
    answer: Result<Verdict<V>, Unjudged>,
}

impl<V: Verifier> Model for Outcome<V> {
    ghost use Rattle.dsec_answer.specs.Told as outcomes;

    ghost Value = { outcomes.Outcome };

    ghost view = { λ it. it.answer };
}

impl<V: Verifier> Outcome<V> {
    /// A verdict as the outcome.
    pub fn judged(verdict: Verdict<V>) -> Outcome<V>
        ensures { result ≡ Ok verdict }
    {
        Outcome {
            answer: Ok(verdict),
        }
    }

    /// A message without a verdict.
    pub fn refused(why: Unjudged) -> Outcome<V>
        ensures { result ≡ Err why }
    {
        Outcome { answer: Err(why) }
    }

    /// What is told of an answer.
    pub(crate) fn told(answer: Result<Verdict<V>, Error>) -> Result<Outcome<V>, NoMemory>
        requires { CanBeTold answer }
        ensures { IfOk result (λ outcome. outcomes.told_of answer ≡ Some outcome) }
    {
        match answer {
            Ok(verdict) => Ok(Outcome::judged(verdict)),
            Err(Error::FormError) => Ok(Outcome::refused(Unjudged::FormError)),
            Err(Error::ParseError) => Ok(Outcome::refused(Unjudged::ParseError)),
            Err(Error::PushError) => Ok(Outcome::refused(Unjudged::PushError)),
            Err(Error::NoMemory) => Err(NoMemory),
            Err(_) => unreachable!(),
        }
    }

    /// The verdict, or why there is none.
    pub fn as_result(&self) -> Result<&Verdict<V>, Unjudged>
        ensures { self.now ≡ outcomes.told_as (λ verdict. verdict.now) result }
    {
        match &self.answer {
            Ok(verdict) => Ok(verdict),
            Err(why) => Err(*why),
        }
    }
}
