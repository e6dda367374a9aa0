//! A message rewritten by its judged groups (RFC 1035 4.1, RFC 2181 5, RFC 4035 5.3.3).

ghost use Rattle.std.specs.Prelude.{◌≡◌, List, ℕ, IfOk, OnOk, OnErr, map, true};
ghost use Rattle.std.specs.List.{list_any};
ghost use Rattle.dsec_spec.specs.Reading.{Gives};
ghost use Rattle.dsec_rewrite.specs.Cutting.{is_changed, is_due as due};
ghost use Rattle.dsec_rewrite.specs.Errors.{wants_memory};
ghost use Rattle.dsec_rewrite.specs.Rewriting.{IsRewriting, left_by, rewriting};
ghost use Rattle.dsec_rewrite.specs.Views.{bounded_view, is_different};

use crate::bounded::{BoundedGroup, differs};
use crate::error::RewriteError;
use crate::kept::read_kept;
use crate::writing::written;
use dsec_message::Message;
use std::alloc::Global;

/// Whether a message is rewritten: a group's TTLs are cut, or it had a duplicate.
pub fn is_due(answers: &[BoundedGroup<'_>], authorities: &[BoundedGroup<'_>]) -> bool
    ensures { result ≡ due (map bounded_view answers.now) (map bounded_view authorities.now) }
{
    any_differs(answers) || any_differs(authorities)
}

/// Whether a group's records differ from those that came.
fn any_differs(groups: &[BoundedGroup<'_>]) -> bool
    ensures { result ≡ list_any is_changed (map bounded_view groups.now) }
{
    one_differs(groups)
}

/// The same, of the groups as the code has them.
fn one_differs(groups: &[BoundedGroup<'_>]) -> bool
    ensures { result ≡ list_any is_different groups.now }
{
    groups.iter().any(|one| differs(one))
}

/// The message that the groups of the answer and authority sections make: the identifier, the flags and the questions as they came, for each
/// group its records, signatures and extra records with their TTLs cut, and the additional section as it came.
pub fn rebuild_msg(
    alloc: Global,
    message: &Message,
    answers: &[BoundedGroup<'_>],
    authorities: &[BoundedGroup<'_>],
) -> Result<Message, RewriteError>
    ensures exact { Gives {Y = List ℕ} wants_memory (λ made. made) result (rewriting message.now (map bounded_view answers.now) (map bounded_view authorities.now)) }
    ensures reads_back { IfOk result (λ made. IsRewriting message.now (map bounded_view answers.now) (map bounded_view authorities.now) made) }
{
    let (question, additional) = read_kept(alloc, message)?;
    let made = written(
        alloc,
        message.header(),
        question.as_slice(),
        answers,
        authorities,
        additional.as_slice(),
    )?;
    Ok(made)
}

/// Leaves the message that its judged groups make, where a group's TTLs are cut or it had a duplicate, and otherwise the message as it
/// came. After an error it is as it came.
pub fn rewrite(
    alloc: Global,
    message: &mut Message,
    answers: &[BoundedGroup<'_>],
    authorities: &[BoundedGroup<'_>],
) -> Result<(), RewriteError>
    ensures exact { Gives {Y = List ℕ} wants_memory (λ _. message.new) result (left_by message.old (map bounded_view answers.now) (map bounded_view authorities.now)) }
    ensures reads_back { due (map bounded_view answers.now) (map bounded_view authorities.now) ≡ true
        → OnOk result (IsRewriting message.old (map bounded_view answers.now) (map bounded_view authorities.now) message.new) }
    ensures err { OnErr result (message.new ≡ message.old) }
{
    if is_due(answers, authorities) {
        *message = rebuild_msg(alloc, message, answers, authorities)?;
    }
    Ok(())
}
