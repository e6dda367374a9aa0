//! What is written for an outcome.

ghost use Rattle.std.specs.Prelude.{◌≡◌, ◌++◌, ◌∷◌, [], IfOk, OnOk, Ok};
ghost use Rattle.std.specs.List.{flat_map};
ghost use Rattle.dsec_found.specs.Outcomes.{state_view};
ghost use Rattle.dsec_link.specs.LinkTexts.{link_line};
ghost use Rattle.dsec_answer.specs.Texts.{cause_text, error_line, error_text, group_lines, head_text, outcome_text, state_text, status_text, verdict_line};

use crate::outcome::{Outcome, Unjudged};
use crate::sending::send_text;
use dsec_cause::Cause;
use dsec_context::Verdict;
use dsec_crypto::Verifier;
use dsec_found::JudgedGroup;
use dsec_group::ValidationState;
use dsec_link::{Link, push_link};
use dsec_name::NoMemory;
use dsec_outside::OctetsSink;
use dsec_word::push_number;
use std::alloc::Global;

/// What is written for the outcome of the message of an index: a line of its own, and after a verdict `Secure` a
/// line for each link of what shows it and of what its denials use.
pub fn text<V: Verifier>(
    alloc: Global,
    index: u64,
    outcome: &Outcome<V>,
) -> Result<Vec<u8>, NoMemory>
    ensures { IfOk result (λ text. text.items ≡ outcome_text index outcome.now) }
{
    let mut sink = OctetsSink::new(alloc);
    let mut gathered = Vec::new(alloc);
    // Such a sink fails only where there is no memory.
    match send_text(alloc, &mut sink, &mut gathered, index, outcome) {
        Ok(()) => joined(sink.octets, gathered),
        Err(_) => Err(NoMemory),
    }
}

/// Octets with others behind them.
fn joined(front: Vec<u8>, rest: Vec<u8>) -> Result<Vec<u8>, NoMemory>
    ensures { IfOk result (λ all. all.items ≡ front.items ++ rest.items) }
{
    let mut all = front;
    all.extend_from_slice(&rest)?;
    Ok(all)
}

/// Adds the line of an outcome.
pub(crate) fn push_head<V: Verifier>(
    out: &mut Vec<u8>,
    index: u64,
    outcome: &Outcome<V>,
) -> Result<(), NoMemory>
    ensures { OnOk result (out.new.items ≡ out.old.items ++ head_text index outcome.now) }
{
    match outcome.as_result() {
        Ok(verdict) => push_verdict_of(out, index, verdict),
        Err(why) => push_error(out, index, why),
    }
}

/// Adds the line of a verdict on a message.
fn push_verdict_of<V: Verifier>(
    out: &mut Vec<u8>,
    index: u64,
    verdict: &Verdict<V>,
) -> Result<(), NoMemory>
    ensures { OnOk result (out.new.items ≡ out.old.items ++ head_text index (Ok verdict.now)) }
{
    let outcome = verdict.outcome();
    push_verdict(
        out,
        index,
        outcome.state(),
        outcome.cause(),
        verdict.questions(),
    )
}

/// Adds the line of a verdict.
#[tactic(auto, unfolding(crate::specs::Texts::verdict_line))]
fn push_verdict(
    out: &mut Vec<u8>,
    index: u64,
    state: ValidationState,
    ede: Option<Cause>,
    questions: u32,
) -> Result<(), NoMemory>
    ensures { OnOk result (out.new.items ≡ out.old.items ++ verdict_line index (state_view state) ede questions) }
{
    push_status(out, index, state)?;
    push_cause(out, ede)?;
    out.extend_from_slice(b" questions=")?;
    push_number(out, u64::from(questions))?;
    out.push(b'\n')?;
    Ok(())
}

/// Adds a message's index and status.
#[tactic(auto, unfolding(crate::specs::Texts::status_text))]
fn push_status(out: &mut Vec<u8>, index: u64, state: ValidationState) -> Result<(), NoMemory>
    ensures { OnOk result (out.new.items ≡ out.old.items ++ status_text index (state_view state)) }
{
    push_number(out, index)?;
    out.extend_from_slice(b" ")?;
    out.extend_from_slice(state_word(state).as_bytes())?;
    out.extend_from_slice(b" ")?;
    Ok(())
}

/// The word of a security status.
fn state_word(state: ValidationState) -> &'static str
    ensures { result.now ≡ state_text (state_view state) }
{
    match state {
        ValidationState::Secure => "Secure",
        ValidationState::Insecure => "Insecure",
        ValidationState::Bogus => "Bogus",
        ValidationState::Indeterminate => "Indeterminate",
    }
}

/// Adds a cause's code and text.
fn push_cause(out: &mut Vec<u8>, ede: Option<Cause>) -> Result<(), NoMemory>
    ensures { OnOk result (out.new.items ≡ out.old.items ++ cause_text ede) }
{
    let Some(cause) = ede else {
        out.extend_from_slice(b"- \"\"")?;
        return Ok(());
    };
    push_number(out, u64::from(cause.code()))?;
    out.extend_from_slice(b" \"")?;
    out.extend_from_slice(cause.text().as_bytes())?;
    out.extend_from_slice(b"\"")?;
    Ok(())
}

/// Adds the lines of a judged group, if it is shown: those of its zone's links, and of its own.
pub(crate) fn push_group<V: Verifier>(
    alloc: Global,
    out: &mut Vec<u8>,
    index: u64,
    judged: &JudgedGroup<V>,
) -> Result<(), NoMemory>
    ensures { OnOk result (out.new.items ≡ out.old.items ++ group_lines index judged.now) }
{
    let last = judged.last_link(alloc)?;
    match (judged.links(), last) {
        (Some(links), Some(last)) => push_shown(out, index, links, &last),
        _ => Ok(()),
    }
}

/// Adds the lines of links, and of one more.
fn push_shown(out: &mut Vec<u8>, index: u64, links: &[Link], last: &Link) -> Result<(), NoMemory>
    ensures { OnOk result (out.new.items ≡ out.old.items ++ flat_map (λ link. link_line index link) (links.now ++ last.now ∷ [])) }
{
    push_links(out, index, links)?;
    push_link(out, index, last)
}

/// Adds the lines of links.
pub(crate) fn push_links(out: &mut Vec<u8>, index: u64, links: &[Link]) -> Result<(), NoMemory>
    ensures { OnOk result (out.new.items ≡ out.old.items ++ flat_map (λ link. link_line index link) links.now) }
{
    for link in links {
        push_link(out, index, link)?;
    }
    Ok(())
}

/// Adds the line of a message without a verdict.
#[tactic(auto, unfolding(crate::specs::Texts::error_line))]
fn push_error(out: &mut Vec<u8>, index: u64, why: Unjudged) -> Result<(), NoMemory>
    ensures { OnOk result (out.new.items ≡ out.old.items ++ error_line index why) }
{
    push_number(out, index)?;
    out.extend_from_slice(b" error:")?;
    out.extend_from_slice(error_name(why).as_bytes())?;
    out.push(b'\n')?;
    Ok(())
}

/// The name of why a message has no verdict.
fn error_name(why: Unjudged) -> &'static str
    ensures { result.now ≡ error_text why }
{
    match why {
        Unjudged::FormError => "FormError",
        Unjudged::ParseError => "ParseError",
        Unjudged::PushError => "PushError",
        Unjudged::ShortMessage => "ShortMessage",
    }
}
