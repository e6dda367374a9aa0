//! Verdicts on messages (RFC 4033 5).

ghost use Rattle.std.specs.Prelude.{◌≡◌};

use dsec_core::Outcome;
use dsec_crypto::Verifier;
use std::marker::Model;

/// What a message comes to, and how many questions were asked for it.
#[derive(Drop)]
pub struct Verdict<V: Verifier> {
    outcome: Outcome<V>,
    questions: u32,
}

impl<V: Verifier> Model for Verdict<V> {
    ghost use Rattle.dsec_context.specs.Verdicts as verdicts;

    ghost Value = { verdicts.Verdict };

    ghost view = { λ it. record { outcome = it.outcome; questions = it.questions } };
}

impl<V: Verifier> Verdict<V> {
    /// An outcome after so many questions.
    pub fn new(outcome: Outcome<V>, questions: u32) -> Verdict<V>
        ensures { result ≡ record { outcome = outcome; questions = questions } }
    {
        Verdict { outcome, questions }
    }

    /// What the message comes to.
    pub fn outcome(&self) -> &Outcome<V>
        ensures { result.now ≡ self.now.outcome }
    {
        &self.outcome
    }

    /// How many questions were asked for it.
    pub fn questions(&self) -> u32
        ensures { result ≡ self.now.questions }
    {
        self.questions
    }
}
