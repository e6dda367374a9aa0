//! That a name exists, denied by its closest encloser (RFC 5155 8.3).

ghost use Rattle.std.specs.Prelude.{◌≡◌, ◌≤◌, ◌+◌, [], Some, take, IfOk};
ghost use Rattle.dsec_nsec3.specs.Walks.{nsec3_for_not_exists as not_exists_of};
ghost use Rattle.dsec_nsec3_calls.specs.Sightings.{end_view};
ghost use Rattle.dsec_nsec3_calls.specs.Told.{TellsEndOf, end_told, gone_told, name_view, not_exists_told, unknown};
ghost use Rattle.dsec_nsec3_calls.specs.Views.{hash_limits, source_of};
ghost use Rattle.dsec_nsec3_calls.specs.Walked.{shown_by, walk_view};
ghost use Rattle.dsec_spec.specs.Names.{Labels, place};

use crate::gone::Gone;
use crate::sighting::End;
use crate::source::Source;
use crate::state::Nsec3NXState;
use crate::step::Walk;
use crate::walk::walk;
use dsec_cause::Cause;
use dsec_crypto::Verifier;
use dsec_group::{Limits, Memo, Steps};
use dsec_name::{Name, NoMemory};
use dsec_negative::{JudgedGroup, Used};
use dsec_number::Class;
use std::alloc::Global;
use std::sync::ledger::Ledger;

/// Whether NSEC3 records among the groups, of this class and signed by this zone, deny that the target exists: the walk goes from the
/// zone's name down to the target, and at each name the first record decides that matches or covers it. With the closest encloser, the
/// cause, and the indexes of the groups. Steps are counted for hashes, whether the memo keeps them or not.
pub fn nsec3_for_not_exists<V: Verifier, L: Ledger>(
    alloc: Global,
    target: &Name,
    groups: &[JudgedGroup<V>],
    class: Class,
    signer: &Name,
    limits: &Limits,
    memo: &mut impl Memo<V>,
    steps: &mut Steps<L>,
) -> Result<(Nsec3NXState, Option<Cause>, Used), NoMemory>
    ensures value { IfOk result (λ it. name_view it ≡ not_exists_told (not_exists_of (hash_limits limits.now) (source_of groups.now class signer.now) (place target.now))) }
    ensures letters { IfOk result (λ it. TellsEndOf target.now it.0) }
    ensures later { steps.old ≤ steps.new }
    ensures bound { steps.new ≤ steps.old + limits.now.max_nsec3_hashes }
{
    let source = Source {
        groups,
        class,
        signer,
        limits,
    };
    let (walk, left) = walk::<V>(&source, target, memo);
    spend(steps, limits.max_nsec3_hashes - left);
    told(alloc, target, walk)
}

/// So many steps more.
fn spend<L: Ledger>(steps: &mut Steps<L>, made: u8)
    ensures { steps.new ≡ steps.old + made }
{
    for _ in 0..made {
        steps.tick();
    }
}

/// What a walk down to the target came to, as the call tells it.
fn told(
    alloc: Global,
    target: &Name,
    walk: Walk,
) -> Result<(Nsec3NXState, Option<Cause>, Used), NoMemory>
    ensures value { IfOk result (λ it. name_view it ≡ not_exists_told (walk_view target.now walk)) }
    ensures letters { IfOk result (λ it. TellsEndOf target.now it.0) }
{
    match walk {
        Walk::Gone(gone) => told_of_gone(alloc, target, &gone),
        Walk::Barred => Ok(unshown(Cause::Nsec3DnameOrDelegation)),
        Walk::Halted(index, end) => Ok(told_of_end(index, end)),
        Walk::Exhausted => Ok(unshown(Cause::TooManyNsec3Hashes)),
        Walk::Unfound => Ok(unshown(Cause::NoNsec3Proof)),
    }
}

/// The same where the target is missing.
fn told_of_gone(
    alloc: Global,
    target: &Name,
    gone: &Gone,
) -> Result<(Nsec3NXState, Option<Cause>, Used), NoMemory>
    ensures value { IfOk result (λ it. name_view it ≡ gone_told (take gone.now.labels (place target.now)) (shown_by gone.now.at_encloser gone.now.around) gone.now.opt_out) }
    ensures letters { IfOk result (λ it. TellsEndOf target.now it.0) }
{
    let encloser = target.ancestor(alloc, gone.labels)?;
    if gone.opt_out {
        let state = Nsec3NXState::DoesNotExistInsecure(encloser);
        return Ok((state, Some(Cause::Nsec3OptOut), gone.used()));
    }
    Ok((Nsec3NXState::DoesNotExist(encloser), None, gone.used()))
}

/// The same where a group ends the walk.
fn told_of_end(index: usize, end: End) -> (Nsec3NXState, Option<Cause>, Used)
    ensures value { name_view result ≡ end_told index (end_view end) }
    ensures letters { (target : Labels) → TellsEndOf target result.0 }
{
    match end {
        End::TooManyIterations => {
            let cause = Cause::Nsec3IterationsTooHigh;
            (Nsec3NXState::Bogus, Some(cause), Used::none())
        }
        End::ManyIterations => {
            let cause = Cause::Nsec3IterationsInsecure;
            (Nsec3NXState::Insecure, Some(cause), Used::one(index))
        }
        End::BadOwnerHash => {
            let cause = Cause::Nsec3BadOwnerHash;
            (Nsec3NXState::Bogus, Some(cause), Used::none())
        }
    }
}

/// The same where nothing is shown.
fn unshown(cause: Cause) -> (Nsec3NXState, Option<Cause>, Used)
    ensures value { name_view result ≡ (unknown, Some cause, []) }
    ensures letters { (target : Labels) → TellsEndOf target result.0 }
{
    (Nsec3NXState::Nothing, Some(cause), Used::none())
}
