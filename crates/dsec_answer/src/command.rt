//! The commands by their words.

ghost use Rattle.std.specs.Prelude.{◌≡◌, ◌+◌, ◌↔◌, ◌⊎◌, IsTrue, Some, true, map, string_bytes};
ghost use Rattle.dsec_crypto.specs.StandIn.{stand_in};
ghost use Rattle.dsec_spec.specs.Outside.{Rose};
ghost use Rattle.dsec_outside.specs.Ends.{TakesAtMost};
ghost use Rattle.dsec_outside.specs.Limit.{limit};
ghost use Rattle.dsec_outside.specs.Statuses.{counted_at};
ghost use Rattle.dsec_signing.specs.Command.{IsSignRun};
ghost use Rattle.dsec_signing.specs.Words.{sign_in};
ghost use Rattle.dsec_signing.specs.declared.words.SignWords.{SignWords};
ghost use Rattle.dsec_answer.specs.Headline.{IsUsageRun, IsValidateRun};
ghost use Rattle.dsec_answer.specs.Words.{IsNoCommand, IsValidate, usage};

use crate::validating::validate;
use dsec_crypto::{StandIn, Verifier};
use dsec_outside::{Sink, Source, send};
use dsec_signing::{sign, sign_words};
use dsec_word::ReadError;
use std::alloc::Global;

/// What is written for words that name no command.
const USAGE: &str = "usage: dsec validate|sign|reply|ask|gen\n";

/// Whether the words are `validate` alone.
fn is_validate(words: &[String]) -> bool
    ensures { IsTrue result ↔ IsValidate (map (λ w. string_bytes w) words.now) }
{
    match words {
        [word] => word.as_str() == "validate",
        _ => false,
    }
}

/// Runs the command that the words name over the stand-in verifier, and gives the status.
pub fn run<S: Source, K: Sink>(alloc: Global, words: &[String], source: &mut S, sink: &mut K) -> u8
    ensures validate { IsValidate (map (λ w. string_bytes w) words.now) → IsValidateRun stand_in result (S.left source.old) (S.left source.new) (K.written sink.old) (K.written sink.new) }
    ensures sign { (said : SignWords) → sign_in (map (λ w. string_bytes w) words.now) ≡ Some said
        → IsSignRun said result (S.left source.old) (S.left source.new) (K.written sink.old) (K.written sink.new) }
    ensures usage { IsNoCommand (map (λ w. string_bytes w) words.now) → IsUsageRun result (K.written sink.old) (K.written sink.new) }
    ensures untouched { IsNoCommand (map (λ w. string_bytes w) words.now)
        → (S.left source.new ≡ S.left source.old) × (S.ended source.new ≡ S.ended source.old) × (S.faults source.new ≡ S.faults source.old) }
    ensures words { result ≡ 2 → IsNoCommand (map (λ w. string_bytes w) words.now) }
    ensures read { result ≡ 4 → Rose (S.faults source.old) (S.faults source.new) }
    ensures write { result ≡ 5 → Rose (K.faults sink.old) (K.faults sink.new) }
    ensures reads { S.faults source.new ≡ counted_at 4 result (S.faults source.old) }
    ensures writes { K.faults sink.new ≡ counted_at 5 result (K.faults sink.old) }
    ensures within { TakesAtMost (limit + 1) (S.left source.old) (S.left source.new) }
    ensures ended { result ≡ 4 → S.ended source.new ≡ S.ended source.old }
    ensures finished { result ≡ 0 → S.ended source.new ≡ true }
    ensures all_read { result ≡ 7 → S.ended source.new ≡ true }
    ensures statuses { (result ≡ 0) ⊎ ((result ≡ 2) ⊎ ((result ≡ 3) ⊎ ((result ≡ 4) ⊎ ((result ≡ 5) ⊎ ((result ≡ 6) ⊎ (result ≡ 7)))))) }
{
    run_by::<StandIn, S, K>(alloc, words, source, sink)
}

/// Runs the command that the words name, `validate` over a verifier, and gives the status: 0 where it was done, 2 where the words name no
/// command, 3 where what the source has is refused, 4 where a read failed, 5 where a write failed, 6 where there was no memory, 7 where a
/// zone isn't signed.
pub fn run_by<V: Verifier, S: Source, K: Sink>(
    alloc: Global,
    words: &[String],
    source: &mut S,
    sink: &mut K,
) -> u8
    ensures validate { IsValidate (map (λ w. string_bytes w) words.now) → IsValidateRun V.accepts result (S.left source.old) (S.left source.new) (K.written sink.old) (K.written sink.new) }
    ensures sign { (said : SignWords) → sign_in (map (λ w. string_bytes w) words.now) ≡ Some said
        → IsSignRun said result (S.left source.old) (S.left source.new) (K.written sink.old) (K.written sink.new) }
    ensures usage { IsNoCommand (map (λ w. string_bytes w) words.now) → IsUsageRun result (K.written sink.old) (K.written sink.new) }
    ensures untouched { IsNoCommand (map (λ w. string_bytes w) words.now)
        → (S.left source.new ≡ S.left source.old) × (S.ended source.new ≡ S.ended source.old) × (S.faults source.new ≡ S.faults source.old) }
    ensures words { result ≡ 2 → IsNoCommand (map (λ w. string_bytes w) words.now) }
    ensures read { result ≡ 4 → Rose (S.faults source.old) (S.faults source.new) }
    ensures write { result ≡ 5 → Rose (K.faults sink.old) (K.faults sink.new) }
    ensures reads { S.faults source.new ≡ counted_at 4 result (S.faults source.old) }
    ensures writes { K.faults sink.new ≡ counted_at 5 result (K.faults sink.old) }
    ensures within { TakesAtMost (limit + 1) (S.left source.old) (S.left source.new) }
    ensures ended { result ≡ 4 → S.ended source.new ≡ S.ended source.old }
    ensures finished { result ≡ 0 → S.ended source.new ≡ true }
    ensures all_read { result ≡ 7 → S.ended source.new ≡ true }
    ensures statuses { (result ≡ 0) ⊎ ((result ≡ 2) ⊎ ((result ≡ 3) ⊎ ((result ≡ 4) ⊎ ((result ≡ 5) ⊎ ((result ≡ 6) ⊎ (result ≡ 7)))))) }
{
    if is_validate(words) {
        return validate::<V, S, K>(alloc, source, sink);
    }
    match sign_words(alloc, words) {
        Ok(said) => sign(alloc, said, source, sink),
        Err(ReadError::Bad) => tell_usage(sink),
        Err(ReadError::NoMemory) => 6,
    }
}

/// Writes the usage, and gives the status.
fn tell_usage<K: Sink>(sink: &mut K) -> u8
    ensures run { IsUsageRun result (K.written sink.old) (K.written sink.new) }
    ensures write { result ≡ 5 → Rose (K.faults sink.old) (K.faults sink.new) }
    ensures writes { K.faults sink.new ≡ counted_at 5 result (K.faults sink.old) }
    ensures statuses { (result ≡ 2) ⊎ (result ≡ 5) }
{
    match send(sink, USAGE.as_bytes()) {
        Ok(()) => 2,
        Err(_) => 5,
    }
}
