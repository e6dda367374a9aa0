//! That a name exists, and the wildcard that could stand for it, denied (RFC 5155 8.4).

ghost use Rattle.std.specs.Prelude.{◌≡◌, ℕ, IfOk};
ghost use Rattle.dsec_nsec3.specs.HashedAnswers as answers;
ghost use Rattle.dsec_nsec3.specs.HashedAnswers.{nsec3_for_nxdomain as nxdomain_of};
ghost use Rattle.dsec_nsec3.specs.HashedDenials.{HashedDenial, name_gone};
ghost use Rattle.dsec_nsec3.specs.Walks as walks;
ghost use Rattle.dsec_nsec3.specs.Walks.{nsec3_for_not_exists as not_exists_of};
ghost use Rattle.dsec_nsec3_calls.specs.Answers.{answer_of};
ghost use Rattle.dsec_nsec3_calls.specs.Sources.{limits_view, source_view};
ghost use Rattle.dsec_nsec3_calls.specs.Told.{TellsEndOf, denied_told, name_view, nxdomain_told, open_told, state_told};
ghost use Rattle.dsec_nsec3_calls.specs.Views.{hash_limits, source_of};
ghost use Rattle.dsec_nsec3_calls.specs.Walked.{walk_view};
ghost use Rattle.dsec_spec.specs.Names.{place};
ghost use Rattle.dsec_spec.specs.SignedBytes.{rightmost};

use crate::answer::{HashedAnswer, missing, of_both};
use crate::covering::search_cover;
use crate::gone::Gone;
use crate::source::Source;
use crate::state::Nsec3NXState;
use crate::step::Walk;
use crate::walk::walk;
use dsec_cause::Cause;
use dsec_crypto::Verifier;
use dsec_group::{Limits, Memo};
use dsec_name::{Name, NoMemory};
use dsec_negative::{JudgedGroup, Used, star_at};
use dsec_number::Class;
use std::alloc::Global;

/// Whether NSEC3 records among the groups, of this class and signed by this zone, deny that the target exists, and that the wildcard under
/// its closest encloser does. With the closest encloser, the cause, and the indexes of the groups.
pub fn nsec3_for_nxdomain<V: Verifier>(
    alloc: Global,
    target: &Name,
    groups: &[JudgedGroup<V>],
    class: Class,
    signer: &Name,
    limits: &Limits,
    memo: &mut impl Memo<V>,
) -> Result<(Nsec3NXState, Option<Cause>, Used), NoMemory>
    ensures value { IfOk result (λ it. name_view it ≡ nxdomain_told (not_exists_of (hash_limits limits.now) (source_of groups.now class signer.now) (place target.now))
        (nxdomain_of (hash_limits limits.now) (source_of groups.now class signer.now) (place target.now))) }
    ensures letters { IfOk result (λ it. TellsEndOf target.now it.0) }
{
    let source = Source {
        groups,
        class,
        signer,
        limits,
    };
    let (walk, _) = walk::<V>(&source, target, memo);
    let answer = name_by_walk::<V>(alloc, &source, target, walk, memo)?;
    told(alloc, target, walk, answer)
}

/// What the groups answer of the target, and of the wildcard that could stand for it.
pub(crate) fn name_answer<V: Verifier>(
    alloc: Global,
    source: &Source<'_, V>,
    target: &Name,
    memo: &mut impl Memo<V>,
) -> Result<HashedAnswer, NoMemory>
    ensures { IfOk result (λ answer. answer ≡ answer_of (nxdomain_of (limits_view source.now) (source_view source.now) (place target.now))) }
{
    let (walk, _) = walk::<V>(source, target, memo);
    name_by_walk::<V>(alloc, source, target, walk, memo)
}

/// The same by what the walk down to the target came to.
fn name_by_walk<V: Verifier>(
    alloc: Global,
    source: &Source<'_, V>,
    target: &Name,
    walk: Walk,
    memo: &mut impl Memo<V>,
) -> Result<HashedAnswer, NoMemory>
    requires { walk_view target.now walk ≡ not_exists_of (limits_view source.now) (source_view source.now) (place target.now) }
    ensures { IfOk result (λ answer. answer ≡ answer_of (nxdomain_of (limits_view source.now) (source_view source.now) (place target.now))) }
{
    match missing(walk) {
        Ok(gone) => name_at_star::<V>(alloc, source, target, &gone, memo),
        Err(answer) => Ok(answer),
    }
}

/// The same where the target is missing.
fn name_at_star<V: Verifier>(
    alloc: Global,
    source: &Source<'_, V>,
    target: &Name,
    gone: &Gone,
    memo: &mut impl Memo<V>,
) -> Result<HashedAnswer, NoMemory>
    ensures { IfOk result (λ answer. (walk : walks.Walk) → walk ≡ walks.gone (place (rightmost gone.now.labels target.now)) gone.now.at_encloser gone.now.around gone.now.opt_out
        → answer ≡ answer_of (answers.told_by_walk (place target.now) (λ star. answers.nsec3_for_not_exists_no_ce (limits_view source.now) (source_view source.now) star) name_gone walk)) }
{
    let Some(star) = star_at(alloc, target, gone.labels)? else {
        return Ok(HashedAnswer::Broken(Cause::WildcardTooLong));
    };
    let told = search_cover::<V>(source, &star, memo);
    Ok(of_both(gone, told))
}

/// An answer of the target, as the call tells it, by what the walk down to it came to.
fn told(
    alloc: Global,
    target: &Name,
    walk: Walk,
    answer: HashedAnswer,
) -> Result<(Nsec3NXState, Option<Cause>, Used), NoMemory>
    ensures value { IfOk result (λ it. (tells : answers.Hashed (HashedDenial ℕ)) → answer ≡ answer_of tells → name_view it ≡ nxdomain_told (walk_view target.now walk) tells) }
    ensures letters { IfOk result (λ it. TellsEndOf target.now it.0) }
{
    match answer {
        HashedAnswer::Denied(used) => {
            let state = denied(alloc, target, walk)?;
            Ok((state, None, used))
        }
        HashedAnswer::LeftOpen(cause, index) => {
            let state = left_open(alloc, target, walk)?;
            Ok((state, cause, Used::one(index)))
        }
        HashedAnswer::Broken(cause) => Ok((Nsec3NXState::Bogus, Some(cause), Used::none())),
        HashedAnswer::Nothing(cause) => Ok((Nsec3NXState::Nothing, cause, Used::none())),
    }
}

/// The state where the target is denied, with its closest encloser.
fn denied(alloc: Global, target: &Name, walk: Walk) -> Result<Nsec3NXState, NoMemory>
    ensures value { IfOk result (λ state. state_told state ≡ denied_told (walk_view target.now walk)) }
    ensures letters { IfOk result (λ state. TellsEndOf target.now state) }
{
    match walk {
        Walk::Gone(gone) => {
            let encloser = target.ancestor(alloc, gone.labels)?;
            Ok(Nsec3NXState::DoesNotExist(encloser))
        }
        _ => Ok(Nsec3NXState::Nothing),
    }
}

/// The state where it is left open, with its closest encloser where that was found.
fn left_open(alloc: Global, target: &Name, walk: Walk) -> Result<Nsec3NXState, NoMemory>
    ensures value { IfOk result (λ state. state_told state ≡ open_told (walk_view target.now walk)) }
    ensures letters { IfOk result (λ state. TellsEndOf target.now state) }
{
    match walk {
        Walk::Gone(gone) => {
            let encloser = target.ancestor(alloc, gone.labels)?;
            Ok(Nsec3NXState::DoesNotExistInsecure(encloser))
        }
        _ => Ok(Nsec3NXState::Insecure),
    }
}
