//! What judging a message hands on (RFC 4033 5, RFC 4035 5.3.3).

ghost use Rattle.std.specs.Prelude.{◌≡◌, None, Err};
ghost use Rattle.std.specs.Option.{option_map};
ghost use Rattle.dsec_nodes.specs.World.{on_circle};
ghost use Rattle.dsec_cut.specs.Cuts.{to_rewrite};

use crate::verdict::Verdict;
use dsec_core::Validation;
use dsec_crypto::Verifier;
use dsec_found::{Error, JudgedGroup};
use std::marker::Model;

/// The verdict on a message, or why there is none, and the judged groups by which the message is rewritten, if it is.
#[derive(Drop)]
pub struct Judgement<V: Verifier> {
    answer: Result<Verdict<V>, Error>,
    validation: Option<Validation<V>>,
}

impl<V: Verifier> Model for Judgement<V> {
    ghost use Rattle.dsec_context.specs.Judgements as judgements;
    ghost use Rattle.dsec_context.specs.Judgements.{groups_of};

    ghost Value = { judgements.Judgement };

    ghost view = { λ it. record { answer = it.answer; groups = groups_of it.validation } };
}

impl<V: Verifier> Judgement<V> {
    /// The answer of a validation that was begun.
    pub(crate) fn new(answer: Result<Verdict<V>, Error>, validation: Validation<V>) -> Judgement<V>
        ensures { result ≡ record { answer = answer; groups = to_rewrite (on_circle validation.moment) validation.course } }
    {
        Judgement {
            answer,
            validation: Some(validation),
        }
    }

    /// The answer where none was begun.
    pub(crate) fn unbegun(error: Error) -> Judgement<V>
        ensures { result ≡ record { answer = Err error; groups = None } }
    {
        Judgement {
            answer: Err(error),
            validation: None,
        }
    }

    /// The judged groups of the answer section and of the authority section, where the message is rewritten by them: all its groups are
    /// judged, none is bogus, and TTLs are cut or there were duplicates.
    pub fn groups(&self) -> Option<(&[JudgedGroup<V>], &[JudgedGroup<V>])>
        ensures { option_map (λ both. (both.0.now, both.1.now)) result ≡ self.now.groups }
    {
        match &self.validation {
            Some(validation) => validation.groups(),
            None => None,
        }
    }

    /// The verdict, or why there is none.
    pub fn into_answer(self) -> Result<Verdict<V>, Error>
        ensures { result ≡ self.answer }
    {
        self.answer
    }
}
