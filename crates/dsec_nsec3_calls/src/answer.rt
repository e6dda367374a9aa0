//! What NSEC3 records answer, within.

ghost use Rattle.std.specs.Prelude.{◌≡◌, ℕ, ◌++◌, [], ◌∷◌, IfErr, IfOk, Option};
ghost use Rattle.dsec_nsec3.specs.HashedAnswers as answers;
ghost use Rattle.dsec_nsec3.specs.HashedAnswers.{told_by_walk};
ghost use Rattle.dsec_nsec3.specs.HashedDenials.{HashedDenial, hashed_used_in};
ghost use Rattle.dsec_nsec3.specs.Openings.{Opening};
ghost use Rattle.dsec_nsec3_calls.specs.Answers.{answer_of, told_both};
ghost use Rattle.dsec_nsec3_calls.specs.Sightings.{end_view};
ghost use Rattle.dsec_nsec3_calls.specs.Tellings.{opening_index, told_of};
ghost use Rattle.dsec_nsec3_calls.specs.Walked.{shown_by, walk_view};
ghost use Rattle.dsec_nsec3_calls.specs.declared.step.Walk.TheVariants as walked;
ghost use Rattle.dsec_spec.specs.Names.{Labels, Place};

use crate::gone::Gone;
use crate::sighting::End;
use crate::step::Walk;
use crate::told::Told;
use dsec_cause::Cause;
use dsec_negative::Used;

/// What NSEC3 records answer of a denial.
#[derive(Drop)]
pub(crate) enum HashedAnswer {
    /// It is denied, by the records of these groups.
    Denied(Used),
    /// It is left open, and why, where a cause is told; and by the record of which group.
    LeftOpen(Option<Cause>, usize),
    /// The records can't be trusted, and why.
    Broken(Cause),
    /// Nothing is shown, and why, where there is a cause.
    Nothing(Option<Cause>),
}

/// What is answered of one name or type, whose denial uses the group at the index alone.
pub(crate) fn answered(told: Told) -> HashedAnswer
    ensures { (tells : answers.Hashed ℕ) (denial : ℕ → HashedDenial ℕ) → told ≡ told_of tells → ((i : ℕ) → hashed_used_in (denial i) ≡ i ∷ [])
        → result ≡ answer_of (answers.as_told denial tells) }
{
    match told {
        Told::Disproved(index) => HashedAnswer::Denied(Used::one(index)),
        Told::Opened(cause, index) => HashedAnswer::LeftOpen(cause, index),
        Told::Broken(cause) => HashedAnswer::Broken(cause),
        Told::Unshown(cause) => HashedAnswer::Nothing(cause),
    }
}

/// What shows a name missing, by the walk down to it; else what is answered without it.
pub(crate) fn missing(walk: Walk) -> Result<Gone, HashedAnswer>
    ensures gone { IfOk result (λ gone. walk ≡ walked.Gone gone) }
    ensures answer { IfErr result (λ answer. (name : Labels) (n : Place) (at_star : Place → answers.Hashed ℕ) (denial : Place → Option ℕ → ℕ → ℕ → HashedDenial ℕ)
        → answer ≡ answer_of (told_by_walk n at_star denial (walk_view name walk))) }
{
    match walk {
        Walk::Gone(gone) => Ok(gone),
        Walk::Barred => Err(HashedAnswer::Nothing(Some(Cause::Nsec3DnameOrDelegation))),
        Walk::Halted(index, end) => Err(halted(index, end)),
        Walk::Exhausted => Err(HashedAnswer::Nothing(Some(Cause::TooManyNsec3Hashes))),
        Walk::Unfound => Err(HashedAnswer::Nothing(Some(Cause::NoNsec3Proof))),
    }
}

/// What is answered where a group ends the call.
fn halted(index: usize, end: End) -> HashedAnswer
    ensures { result ≡ answer_of (answers.told_by_end index (end_view end)) }
{
    match end {
        End::TooManyIterations => HashedAnswer::Broken(Cause::Nsec3IterationsTooHigh),
        End::ManyIterations => {
            HashedAnswer::LeftOpen(Some(Cause::Nsec3IterationsInsecure), index)
        }
        End::BadOwnerHash => HashedAnswer::Broken(Cause::Nsec3BadOwnerHash),
    }
}

/// What is answered of a missing name by what is told of the wildcard under its closest encloser.
pub(crate) fn of_both(gone: &Gone, told: Told) -> HashedAnswer
    ensures { (tells : answers.Hashed ℕ) (denial : ℕ → HashedDenial ℕ) (by : Opening) → told ≡ told_of tells → opening_index by ≡ gone.now.around
        → ((j : ℕ) → hashed_used_in (denial j) ≡ shown_by gone.now.at_encloser gone.now.around ++ j ∷ [])
        → result ≡ answer_of (told_both gone.now.opt_out denial by tells) }
{
    if gone.opt_out {
        under_opt_out(gone.around, told)
    } else {
        with_both(gone, told)
    }
}

/// The same where it is missing without Opt-Out.
fn with_both(gone: &Gone, told: Told) -> HashedAnswer
    ensures { (tells : answers.Hashed ℕ) (denial : ℕ → HashedDenial ℕ) → told ≡ told_of tells → ((j : ℕ) → hashed_used_in (denial j) ≡ shown_by gone.now.at_encloser gone.now.around ++ j ∷ [])
        → result ≡ answer_of (answers.as_told denial tells) }
{
    match told {
        Told::Disproved(index) => HashedAnswer::Denied(gone.used_with(index)),
        Told::Opened(cause, index) => HashedAnswer::LeftOpen(cause, index),
        Told::Broken(cause) => HashedAnswer::Broken(cause),
        Told::Unshown(cause) => HashedAnswer::Nothing(cause),
    }
}

/// The same where the name is missing with Opt-Out only, by the record of the group at this index.
fn under_opt_out(around: usize, told: Told) -> HashedAnswer
    ensures { (tells : answers.Hashed ℕ) (by : Opening) → told ≡ told_of tells → opening_index by ≡ around → result ≡ answer_of (answers.told_under_opt_out by tells) }
{
    match told {
        Told::Disproved(_) | Told::Opened(_, _) => {
            HashedAnswer::LeftOpen(Some(Cause::Nsec3OptOut), around)
        }
        Told::Broken(_) => HashedAnswer::Broken(Cause::Nsec3OptOut),
        Told::Unshown(_) => HashedAnswer::Nothing(Some(Cause::Nsec3OptOut)),
    }
}
