//! Messages that were judged, handed on (RFC 2181 5, RFC 4035 5.3.3).

ghost use Rattle.std.specs.Prelude.{◌≡◌, Some, IfSome, List, ℕ, OnErr, OnOk};
ghost use Rattle.dsec_spec.specs.Reading.{Gives};
ghost use Rattle.dsec_nodes.specs.World.{on_circle};
ghost use Rattle.dsec_cut.specs.Cuts.{left_as};
ghost use Rattle.dsec_rewrite.specs.Errors.{wants_memory};
ghost use Rattle.dsec_context.specs.Handling.{IsRewrittenBy, OnEnd};
ghost use Rattle.dsec_context.specs.Leaving.{error_by, handed_on, IsHanded};

use crate::judgement::Judgement;
use crate::verdict::Verdict;
use dsec_core::all_bounded;
use dsec_crypto::Verifier;
use dsec_found::{Error, JudgedGroup};
use dsec_message::Message;
use dsec_rewrite::{RewriteError, rebuild_msg};
use std::alloc::Global;

/// What is answered of a message that was judged at a moment. The message is left as it came, or rewritten where that is due; if it can't be
/// rewritten, that is answered in place of what judging came to, and the message is as it came.
pub(crate) fn hand_on<V: Verifier>(
    alloc: Global,
    message: &mut Message,
    judgement: Judgement<V>,
    now: u64,
) -> Result<Verdict<V>, Error>
    ensures handed { IsHanded message.old (handed_on (on_circle now) message.old judgement.answer judgement.groups) result message.new }
    ensures reads_back { OnEnd result (IfSome judgement.groups (λ both. IsRewrittenBy (on_circle now) message.old both message.new)) }
{
    match leave(alloc, message, &judgement, now) {
        Ok(()) => judgement.into_answer(),
        Err(error) => Err(refusal(error)),
    }
}

/// A message is left as it came, or rewritten by its judged groups where that is due. After an error it is as it came.
fn leave<V: Verifier>(
    alloc: Global,
    message: &mut Message,
    judgement: &Judgement<V>,
    now: u64,
) -> Result<(), RewriteError>
    ensures exact { Gives {Y = List ℕ} wants_memory (λ _. message.new) result (left_as (on_circle now) message.old judgement.now.groups) }
    ensures reads_back { OnOk result (IfSome judgement.now.groups (λ both. IsRewrittenBy (on_circle now) message.old both message.new)) }
    ensures err { OnErr result (message.new ≡ message.old) }
{
    match judgement.groups() {
        Some((answers, authorities)) => rewrite(alloc, message, answers, authorities, now),
        None => Ok(()),
    }
}

/// Rewrites a message by its judged groups. After an error it is as it came.
fn rewrite<V: Verifier>(
    alloc: Global,
    message: &mut Message,
    answers: &[JudgedGroup<V>],
    authorities: &[JudgedGroup<V>],
    now: u64,
) -> Result<(), RewriteError>
    ensures exact { Gives {Y = List ℕ} wants_memory (λ _. message.new) result (left_as (on_circle now) message.old (Some (answers.now, authorities.now))) }
    ensures reads_back { OnOk result (IsRewrittenBy (on_circle now) message.old (answers.now, authorities.now) message.new) }
    ensures err { OnErr result (message.new ≡ message.old) }
{
    let answers = all_bounded(alloc, answers, now)?;
    let authorities = all_bounded(alloc, authorities, now)?;
    *message = rebuild_msg(alloc, message, &answers, &authorities)?;
    Ok(())
}

/// Why a message isn't rewritten, as it is answered.
fn refusal(error: RewriteError) -> Error
    ensures { result ≡ error_by error }
{
    match error {
        RewriteError::ParseError => Error::ParseError,
        RewriteError::PushError => Error::PushError,
        RewriteError::NoMemory => Error::NoMemory,
    }
}
