//! The text of an outcome, which goes out in blocks while it is made, so that a long one is never held whole. Its last octet is held back
//! until nothing is left to be made: where memory is wanted not all of it has gone out.

ghost use Rattle.std.specs.Prelude.{◌≡◌, ◌++◌, [], ℕ, IfNone, IfSome, OnOk, IsErrOf};
ghost use Rattle.std.specs.List.{flat_map};
ghost use Rattle.dsec_spec.specs.Outside.{SentFront};
ghost use Rattle.dsec_outside.specs.Faults.{CountsWrites};
ghost use Rattle.dsec_outside.specs.Sending.{SentBut};
ghost use Rattle.dsec_answer.specs.Sending.{HoldsBack, NotAll};
ghost use Rattle.dsec_answer.specs.Texts.{group_lines, outcome_text, rest_text, used_groups_lines};

use crate::outcome::Outcome;
use crate::texts::{push_group, push_head};
use crate::used_texts::push_first;
use dsec_context::{UsedGroup, Why};
use dsec_crypto::Verifier;
use dsec_found::JudgedGroup;
use dsec_group::ValidationState;
use dsec_outside::{BLOCK, Halt, Sink, send};
use std::alloc::Global;

/// Sends what is written for the outcome of the message of an index, behind what was gathered: whole blocks go out, and what is left of it
/// is gathered.
pub(crate) fn send_text<V: Verifier, K: Sink>(
    alloc: Global,
    sink: &mut K,
    gathered: &mut Vec<u8>,
    index: u64,
    outcome: &Outcome<V>,
) -> Result<(), Halt>
    ensures counts { CountsWrites (K.faults sink.old) (K.faults sink.new) result }
    ensures sent { OnOk result (SentBut (K.written sink.old) (K.written sink.new) (gathered.old.items ++ outcome_text index outcome.now) gathered.new.items) }
    ensures front { SentFront (K.written sink.old) (K.written sink.new) (gathered.old.items ++ outcome_text index outcome.now) }
    ensures memory { IsErrOf result Halt.Memory → NotAll (K.written sink.old) (K.written sink.new) (gathered.old.items ++ outcome_text index outcome.now) }
    ensures back { OnOk result (HoldsBack (K.written sink.old) (K.written sink.new) gathered.old.items gathered.new.items) }
{
    push_head(gathered, index, outcome)?;
    send_front(sink, gathered)?;
    match shown_groups(outcome) {
        Some((judged, used)) => send_shown(alloc, sink, gathered, index, judged, used),
        None => Ok(()),
    }
}

/// The same of an outcome that is let go.
pub(crate) fn send_outcome<V: Verifier, K: Sink>(
    alloc: Global,
    sink: &mut K,
    gathered: &mut Vec<u8>,
    index: u64,
    outcome: Outcome<V>,
) -> Result<(), Halt>
    ensures counts { CountsWrites (K.faults sink.old) (K.faults sink.new) result }
    ensures sent { OnOk result (SentBut (K.written sink.old) (K.written sink.new) (gathered.old.items ++ outcome_text index outcome) gathered.new.items) }
    ensures front { SentFront (K.written sink.old) (K.written sink.new) (gathered.old.items ++ outcome_text index outcome) }
    ensures memory { IsErrOf result Halt.Memory → NotAll (K.written sink.old) (K.written sink.new) (gathered.old.items ++ outcome_text index outcome) }
    ensures back { OnOk result (HoldsBack (K.written sink.old) (K.written sink.new) gathered.old.items gathered.new.items) }
{
    send_text(alloc, sink, gathered, index, &outcome)
}

/// The judged groups and those that denials use whose lines are written behind an outcome's own, where there are such.
fn shown_groups<V: Verifier>(outcome: &Outcome<V>) -> Option<(&[JudgedGroup<V>], &[UsedGroup<V>])>
    ensures some { IfSome result (λ both. (index : ℕ) → rest_text index outcome.now ≡ flat_map (λ j. group_lines index j) both.0.now ++ used_groups_lines index [] both.1.now) }
    ensures none { IfNone result ((index : ℕ) → rest_text index outcome.now ≡ []) }
{
    let Ok(verdict) = outcome.as_result() else {
        return None;
    };
    let outcome = verdict.outcome();
    match (outcome.state(), outcome.why()) {
        (ValidationState::Secure, Why::ByGroups(judged, used)) => Some((judged, used)),
        _ => None,
    }
}

/// Sends the lines of judged groups, and of those that denials use.
fn send_shown<V: Verifier, K: Sink>(
    alloc: Global,
    sink: &mut K,
    gathered: &mut Vec<u8>,
    index: u64,
    judged: &[JudgedGroup<V>],
    used: &[UsedGroup<V>],
) -> Result<(), Halt>
    ensures counts { CountsWrites (K.faults sink.old) (K.faults sink.new) result }
    ensures sent { OnOk result (SentBut (K.written sink.old) (K.written sink.new) (gathered.old.items ++ (flat_map (λ j. group_lines index j) judged.now ++ used_groups_lines index [] used.now)) gathered.new.items) }
    ensures front { SentFront (K.written sink.old) (K.written sink.new) (gathered.old.items ++ (flat_map (λ j. group_lines index j) judged.now ++ used_groups_lines index [] used.now)) }
    ensures memory { IsErrOf result Halt.Memory → NotAll (K.written sink.old) (K.written sink.new) (gathered.old.items ++ (flat_map (λ j. group_lines index j) judged.now ++ used_groups_lines index [] used.now)) }
    ensures back { OnOk result (HoldsBack (K.written sink.old) (K.written sink.new) gathered.old.items gathered.new.items) }
{
    send_groups(alloc, sink, gathered, index, judged)?;
    send_used_groups(alloc, sink, gathered, index, used)
}

/// Sends the lines of judged groups.
fn send_groups<V: Verifier, K: Sink>(
    alloc: Global,
    sink: &mut K,
    gathered: &mut Vec<u8>,
    index: u64,
    judged: &[JudgedGroup<V>],
) -> Result<(), Halt>
    ensures counts { CountsWrites (K.faults sink.old) (K.faults sink.new) result }
    ensures sent { OnOk result (SentBut (K.written sink.old) (K.written sink.new) (gathered.old.items ++ flat_map (λ j. group_lines index j) judged.now) gathered.new.items) }
    ensures front { SentFront (K.written sink.old) (K.written sink.new) (gathered.old.items ++ flat_map (λ j. group_lines index j) judged.now) }
    ensures memory { IsErrOf result Halt.Memory → NotAll (K.written sink.old) (K.written sink.new) (gathered.old.items ++ flat_map (λ j. group_lines index j) judged.now) }
    ensures back { OnOk result (HoldsBack (K.written sink.old) (K.written sink.new) gathered.old.items gathered.new.items) }
{
    for place in 0..judged.len() {
        push_group(alloc, gathered, index, &judged[place])?;
        send_front(sink, gathered)?;
    }
    Ok(())
}

/// Sends the lines of the groups that denials use, each where it is used first.
fn send_used_groups<V: Verifier, K: Sink>(
    alloc: Global,
    sink: &mut K,
    gathered: &mut Vec<u8>,
    index: u64,
    used: &[UsedGroup<V>],
) -> Result<(), Halt>
    ensures counts { CountsWrites (K.faults sink.old) (K.faults sink.new) result }
    ensures sent { OnOk result (SentBut (K.written sink.old) (K.written sink.new) (gathered.old.items ++ used_groups_lines index [] used.now) gathered.new.items) }
    ensures front { SentFront (K.written sink.old) (K.written sink.new) (gathered.old.items ++ used_groups_lines index [] used.now) }
    ensures memory { IsErrOf result Halt.Memory → NotAll (K.written sink.old) (K.written sink.new) (gathered.old.items ++ used_groups_lines index [] used.now) }
    ensures back { OnOk result (HoldsBack (K.written sink.old) (K.written sink.new) gathered.old.items gathered.new.items) }
{
    for place in 0..used.len() {
        push_first(alloc, gathered, index, &used[..place], &used[place])?;
        send_front(sink, gathered)?;
    }
    Ok(())
}

/// Sends what was gathered but for its last octet, once that is a block, and else keeps it.
fn send_front<K: Sink>(sink: &mut K, gathered: &mut Vec<u8>) -> Result<(), Halt>
    ensures counts { CountsWrites (K.faults sink.old) (K.faults sink.new) result }
    ensures only { IsErrOf result Halt.Memory → ⊥ }
    ensures sent { OnOk result (SentBut (K.written sink.old) (K.written sink.new) gathered.old.items gathered.new.items) }
    ensures front { SentFront (K.written sink.old) (K.written sink.new) gathered.old.items }
    ensures back { OnOk result (HoldsBack (K.written sink.old) (K.written sink.new) gathered.old.items gathered.new.items) }
{
    if gathered.len() < BLOCK {
        return Ok(());
    }
    let Some(last) = gathered.pop() else {
        return Ok(());
    };
    send(sink, gathered)?;
    gathered.clear();
    gathered.push_reserved(last);
    Ok(())
}
