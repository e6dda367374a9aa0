//! The command `validate` over any source and sink.

ghost use Rattle.std.specs.Prelude.{◌≡◌, ◌+◌, true};
ghost use Rattle.dsec_spec.specs.Outside.{Rose};
ghost use Rattle.dsec_outside.specs.Ends.{TakesAtMost};
ghost use Rattle.dsec_outside.specs.Limit.{limit};
ghost use Rattle.dsec_outside.specs.Statuses.{counted_at};
ghost use Rattle.dsec_answer.specs.Headline.{IsValidateRun};

use crate::script::answer;
use dsec_crypto::Verifier;
use dsec_outside::{Sink, Source, Stop, read_all};
use std::alloc::Global;

/// Runs the command over a verifier: judges the messages of the script that the source has, and gives the status: 0 where all were judged, 3
/// where the script is refused, 4 where a read failed, 5 where a write failed, 6 where there was no memory.
pub fn validate<V: Verifier, S: Source, K: Sink>(alloc: Global, source: &mut S, sink: &mut K) -> u8
    ensures run { IsValidateRun V.accepts result (S.left source.old) (S.left source.new) (K.written sink.old) (K.written sink.new) }
    ensures read { result ≡ 4 → Rose (S.faults source.old) (S.faults source.new) }
    ensures write { result ≡ 5 → Rose (K.faults sink.old) (K.faults sink.new) }
    ensures reads { S.faults source.new ≡ counted_at 4 result (S.faults source.old) }
    ensures writes { K.faults sink.new ≡ counted_at 5 result (K.faults sink.old) }
    ensures within { TakesAtMost (limit + 1) (S.left source.old) (S.left source.new) }
    ensures ended { result ≡ 4 → S.ended source.new ≡ S.ended source.old }
    ensures finished { result ≡ 0 → S.ended source.new ≡ true }
{
    match read_all(alloc, source) {
        Ok(content) => answer::<V, K>(alloc, content, sink),
        Err(Stop::Read) => 4,
        Err(Stop::Memory) => 6,
    }
}
