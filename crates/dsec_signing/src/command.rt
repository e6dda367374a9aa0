//! The command over any source and sink.

ghost use Rattle.std.specs.Prelude.{◌≡◌, ◌≤◌, ◌⊎◌, ◌+◌, ◌++◌, All, IfOk, IsErrOf, OnOk, length, true};
ghost use Rattle.std.specs.Io.KnownBytes.{Appends, Keeps};
ghost use Rattle.dsec_spec.specs.Numbers.{IN};
ghost use Rattle.dsec_spec.specs.Outside.{Rose, SentFront};
ghost use Rattle.dsec_outside.specs.Ends.{TakesAtMost};
ghost use Rattle.dsec_outside.specs.Faults.{CountsWrites};
ghost use Rattle.dsec_outside.specs.Limit.{limit};
ghost use Rattle.dsec_outside.specs.Statuses.{counted_at};
ghost use Rattle.dsec_signing.specs.Command.{IsSignRun, PartFrom, RefusedAt, SentFor, SignedFrom, UnsignedFrom, error_line};
ghost use Rattle.dsec_rrsig.specs.Errors.{signing_error_text};
ghost use Rattle.dsec_signing.specs.Refusals.{refused_text, word_text};
ghost use Rattle.dsec_signing.specs.Reading.{AnswersSource};

use crate::error::{Refused, SourceError, Unsigned, Word};
use crate::making::sign_records;
use crate::words::SignWords;
use crate::zone::read_zone;
use dsec_name::NoMemory;
use dsec_outside::{Halt, Sink, Source, Stop, read_all, send};
use dsec_record_text::send_records;
use dsec_rrsig::SigningError;
use dsec_wire::Record;
use dsec_word::push_number;
use std::alloc::Global;
use std::io::Write;

/// Runs the command: signs the zone that the source has as text, and gives the status: 0 where the signed zone was written, 3 where the text
/// is refused, 4 where a read failed, 5 where a write failed, 6 where there was no memory, 7 where the zone isn't signed.
pub fn sign<S: Source, K: Sink>(alloc: Global, words: SignWords, source: &mut S, sink: &mut K) -> u8
    requires { length words.key.public_key ≤ 64 }
    ensures run { IsSignRun words result (S.left source.old) (S.left source.new) (K.written sink.old) (K.written sink.new) }
    ensures read { result ≡ 4 → Rose (S.faults source.old) (S.faults source.new) }
    ensures write { result ≡ 5 → Rose (K.faults sink.old) (K.faults sink.new) }
    ensures reads { S.faults source.new ≡ counted_at 4 result (S.faults source.old) }
    ensures writes { K.faults sink.new ≡ counted_at 5 result (K.faults sink.old) }
    ensures within { TakesAtMost (limit + 1) (S.left source.old) (S.left source.new) }
    ensures ended { result ≡ 4 → S.ended source.new ≡ S.ended source.old }
    ensures finished { result ≡ 0 → S.ended source.new ≡ true }
    ensures all_read { result ≡ 7 → S.ended source.new ≡ true }
{
    match read_all(alloc, source) {
        Ok(content) => sign_content(alloc, words, content, sink),
        Err(Stop::Read) => 4,
        Err(Stop::Memory) => 6,
    }
}

/// Signs the zone that a text is, or names its first refused line.
fn sign_content<K: Sink>(alloc: Global, words: SignWords, content: Vec<u8>, sink: &mut K) -> u8
    requires { length words.key.public_key ≤ 64 }
    ensures done { result ≡ 0 → SignedFrom words content.items (K.written sink.old) (K.written sink.new) }
    ensures refused { result ≡ 3 → RefusedAt content.items (K.written sink.old) (K.written sink.new) }
    ensures unsigned { result ≡ 7 → UnsignedFrom words content.items (K.written sink.old) (K.written sink.new) }
    ensures front { SentFor words content.items (K.written sink.old) (K.written sink.new) }
    ensures memory { result ≡ 6 → Keeps (K.written sink.old) (K.written sink.new) ⊎ PartFrom words content.items (K.written sink.old) (K.written sink.new) }
    ensures write { result ≡ 5 → Rose (K.faults sink.old) (K.faults sink.new) }
    ensures writes { K.faults sink.new ≡ counted_at 5 result (K.faults sink.old) }
    ensures statuses { (result ≡ 0) ⊎ ((result ≡ 3) ⊎ ((result ≡ 5) ⊎ ((result ≡ 6) ⊎ (result ≡ 7)))) }
{
    match take_zone(alloc, content) {
        Ok(records) => match sign_records(alloc, words, records) {
            Ok(made) => match send_records(alloc, made.as_slice(), sink) {
                Ok(()) => 0,
                Err(halt) => halt.status(),
            },
            Err(Unsigned::Refused(error)) => match tell(alloc, error, sink) {
                Ok(()) => 7,
                Err(halt) => halt.status(),
            },
            Err(Unsigned::NoMemory) => 6,
        },
        Err(SourceError::Refused(refused)) => match refuse(alloc, refused, sink) {
            Ok(()) => 3,
            Err(halt) => halt.status(),
        },
        Err(SourceError::NoMemory) => 6,
    }
}

/// The records of a text, which is let go.
fn take_zone(alloc: Global, content: Vec<u8>) -> Result<Vec<Record>, SourceError>
    ensures exact { AnswersSource (λ records. records.items) content.items result }
    ensures class { IfOk result (λ records. All (λ r. r.class ≡ IN) records.items) }
{
    read_zone(alloc, &content)
}

/// Names a refused line.
fn refuse<K: Sink>(alloc: Global, refused: Refused, sink: &mut K) -> Result<(), Halt>
    ensures later { K.faults sink.old ≤ K.faults sink.new }
    ensures write { IsErrOf result Halt.Write → Rose (K.faults sink.old) (K.faults sink.new) }
    ensures counts { CountsWrites (K.faults sink.old) (K.faults sink.new) result }
    ensures sent { OnOk result (Appends (K.written sink.old) (K.written sink.new) (refused_text refused)) }
    ensures front { SentFront (K.written sink.old) (K.written sink.new) (refused_text refused) }
    ensures memory { IsErrOf result Halt.Memory → Keeps (K.written sink.old) (K.written sink.new) }
{
    let out = refusal(alloc, refused)?;
    send(sink, &out)
}

/// The line that names a refused one.
#[tactic(auto, unfolding(crate::specs::Refusals::refused_text))]
fn refusal(alloc: Global, refused: Refused) -> Result<Vec<u8>, NoMemory>
    ensures { IfOk result (λ text. text.items ≡ refused_text refused) }
{
    let mut out = Vec::new(alloc);
    out.extend_from_slice(b"line ")?;
    push_number(&mut out, refused.line as u64)?;
    out.extend_from_slice(b": ")?;
    out.extend_from_slice(word_of(refused.word).as_bytes())?;
    out.push(b'\n')?;
    Ok(out)
}

/// The word for what is wrong with a line.
fn word_of(word: Word) -> &'static str
    ensures { result.now ≡ word_text word }
{
    match word {
        Word::Size => "size",
        Word::Zone => "zone",
    }
}

/// Says why a zone isn't signed.
fn tell<K: Sink>(alloc: Global, error: SigningError, sink: &mut K) -> Result<(), Halt>
    ensures later { K.faults sink.old ≤ K.faults sink.new }
    ensures write { IsErrOf result Halt.Write → Rose (K.faults sink.old) (K.faults sink.new) }
    ensures counts { CountsWrites (K.faults sink.old) (K.faults sink.new) result }
    ensures sent { OnOk result (Appends (K.written sink.old) (K.written sink.new) (error_line error)) }
    ensures front { SentFront (K.written sink.old) (K.written sink.new) (error_line error) }
    ensures memory { IsErrOf result Halt.Memory → Keeps (K.written sink.old) (K.written sink.new) }
{
    let out = reason(alloc, error)?;
    send(sink, &out)
}

/// The line that says why a zone isn't signed.
#[tactic(auto, unfolding(crate::specs::Command::error_line))]
fn reason(alloc: Global, error: SigningError) -> Result<Vec<u8>, NoMemory>
    ensures { IfOk result (λ text. text.items ≡ error_line error) }
{
    let mut out = Vec::new(alloc);
    out.extend_from_slice(b"error: ")?;
    push_error(&mut out, error)?;
    out.push(b'\n')?;
    Ok(out)
}

/// Adds an error's text.
fn push_error(out: &mut Vec<u8>, error: SigningError) -> Result<(), NoMemory>
    ensures { OnOk result (out.new.items ≡ out.old.items ++ signing_error_text error) }
{
    match write!(out, "{error}") {
        Ok(()) => Ok(()),
        Err(_) => Err(NoMemory),
    }
}
