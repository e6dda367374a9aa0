//! Scripts judged, or the first refused line of one named.

ghost use Rattle.std.specs.Prelude.{◌≡◌, ◌⊎◌, ℕ, List, IfOk, OnOk, IsErrOf};
ghost use Rattle.std.specs.Io.KnownBytes.{Appends, Keeps};
ghost use Rattle.dsec_spec.specs.Outside.{SentFront};
ghost use Rattle.dsec_outside.specs.Faults.{CountsWrites};
ghost use Rattle.dsec_outside.specs.Statuses.{counted_at};
ghost use Rattle.dsec_answer.specs.Headline.{Answered, PartFrom, RefusedAt, SentFor};
ghost use Rattle.dsec_answer.specs.Outcomes.{IsAnswer, IsText};
ghost use Rattle.dsec_answer.specs.Sending.{NotAll};
ghost use Rattle.dsec_answer.specs.Words.{refused_text, word_text};
ghost use Rattle.dsec_script.specs.Place.{wants_memory};
ghost use Rattle.dsec_script.specs.Script.{script_of};
ghost use Rattle.dsec_spec.specs.Reading.{Gives};

use crate::judging::judge_all;
use dsec_anchors::TrustAnchors;
use dsec_context::ValidationContext;
use dsec_crypto::Verifier;
use dsec_name::NoMemory;
use dsec_outside::{Halt, Sink, TableUpstream, send};
use dsec_script::{Item, Refused, Script, ScriptError, Word, read_script};
use std::alloc::Global;

/// Judges messages from anchors, over an upstream that answers by a script's replies.
fn judge_from<V: Verifier, K: Sink>(
    alloc: Global,
    anchors: TrustAnchors,
    upstream: &mut TableUpstream,
    items: Vec<Item>,
    sink: &mut K,
) -> Result<(), Halt>
    ensures counts { CountsWrites (K.faults sink.old) (K.faults sink.new) result }
    ensures sent { OnOk result ((text : List ℕ) × IsText V.accepts anchors upstream.old.replies items.items text × Appends (K.written sink.old) (K.written sink.new) text) }
    ensures front { (text : List ℕ) × IsText V.accepts anchors upstream.old.replies items.items text × SentFront (K.written sink.old) (K.written sink.new) text }
    ensures memory { IsErrOf result Halt.Memory → (text : List ℕ) × IsText V.accepts anchors upstream.old.replies items.items text × NotAll (K.written sink.old) (K.written sink.new) text }
{
    let mut context = ValidationContext::<V>::new(alloc, anchors);
    judge_all(alloc, &mut context, upstream, items, sink)
}

/// Judges a script's messages, over an upstream that answers by its replies.
fn judge_script<V: Verifier, K: Sink>(
    alloc: Global,
    script: Script,
    sink: &mut K,
) -> Result<(), Halt>
    ensures counts { CountsWrites (K.faults sink.old) (K.faults sink.new) result }
    ensures sent { OnOk result ((text : List ℕ) × IsAnswer V.accepts script text × Appends (K.written sink.old) (K.written sink.new) text) }
    ensures front { (text : List ℕ) × IsAnswer V.accepts script text × SentFront (K.written sink.old) (K.written sink.new) text }
    ensures memory { IsErrOf result Halt.Memory → (text : List ℕ) × IsAnswer V.accepts script text × NotAll (K.written sink.old) (K.written sink.new) text }
{
    let mut upstream = TableUpstream::new(script.replies);
    let anchors = TrustAnchors::from_vec(script.anchors.into_vec());
    judge_from::<V, K>(alloc, anchors, &mut upstream, script.items.into_vec(), sink)
}

/// The word for what is wrong with a line.
fn word_of(word: Word) -> &'static str
    ensures { result.now ≡ word_text word }
{
    match word {
        Word::Size => "size",
        Word::Other => "other",
        Word::Order => "order",
        Word::Now => "now",
        Word::Anchor => "anchor",
        Word::Reply => "reply",
        Word::Message => "message",
        Word::End => "end",
    }
}

/// The line that names a refused one.
#[tactic(auto, unfolding(crate::specs::Words::refused_text))]
fn refusal(alloc: Global, refused: Refused) -> Result<Vec<u8>, NoMemory>
    ensures { IfOk result (λ text. text.items ≡ refused_text refused) }
{
    let line = refused.line;
    let number = format!(in alloc; "{line}")?;
    let mut out = Vec::new(alloc);
    out.extend_from_slice(b"line ")?;
    out.extend_from_slice(number.as_bytes())?;
    out.extend_from_slice(b": ")?;
    out.extend_from_slice(word_of(refused.word).as_bytes())?;
    out.push(b'\n')?;
    Ok(out)
}

/// Names a refused line.
fn refuse<K: Sink>(alloc: Global, refused: Refused, sink: &mut K) -> Result<(), Halt>
    ensures counts { CountsWrites (K.faults sink.old) (K.faults sink.new) result }
    ensures sent { OnOk result (Appends (K.written sink.old) (K.written sink.new) (refused_text refused)) }
    ensures front { SentFront (K.written sink.old) (K.written sink.new) (refused_text refused) }
    ensures memory { IsErrOf result Halt.Memory → Keeps (K.written sink.old) (K.written sink.new) }
{
    let out = refusal(alloc, refused)?;
    send(sink, &out)
}

/// What octets say as a script; they are let go.
fn read_once(alloc: Global, content: Vec<u8>) -> Result<Script, ScriptError>
    ensures { Gives wants_memory (λ script. script) result (script_of content.items) }
{
    read_script(alloc, &content)
}

/// Judges the messages of a script and writes their outcomes, or names its first refused line; and gives the status. The
/// content is let go before the messages are judged.
pub fn answer<V: Verifier, K: Sink>(alloc: Global, content: Vec<u8>, sink: &mut K) -> u8
    ensures counts { K.faults sink.new ≡ counted_at 5 result (K.faults sink.old) }
    ensures done { result ≡ 0 → Answered V.accepts content.items (K.written sink.old) (K.written sink.new) }
    ensures refused { result ≡ 3 → RefusedAt content.items (K.written sink.old) (K.written sink.new) }
    ensures front { SentFor V.accepts content.items (K.written sink.old) (K.written sink.new) }
    ensures memory { result ≡ 6 → Keeps (K.written sink.old) (K.written sink.new) ⊎ PartFrom V.accepts content.items (K.written sink.old) (K.written sink.new) }
    ensures statuses { (result ≡ 0) ⊎ ((result ≡ 3) ⊎ ((result ≡ 5) ⊎ (result ≡ 6))) }
{
    match read_once(alloc, content) {
        Ok(script) => match judge_script::<V, K>(alloc, script, sink) {
            Ok(()) => 0,
            Err(halt) => halt.status(),
        },
        Err(ScriptError::Refused(refused)) => match refuse(alloc, refused, sink) {
            Ok(()) => 3,
            Err(halt) => halt.status(),
        },
        Err(ScriptError::NoMemory) => 6,
    }
}
