//! What is told by hashes, within.

ghost use Rattle.std.specs.Prelude.{◌≡◌};
ghost use Rattle.dsec_nsec3.specs.HashedAnswers as answers;
ghost use Rattle.dsec_nsec3_calls.specs.Sightings.{end_view};
ghost use Rattle.dsec_nsec3_calls.specs.Tellings.{told_of};

use crate::sighting::End;
use dsec_cause::Cause;

/// What is told of a name or a type.
#[derive(Clone, Copy)]
pub(crate) enum Told {
    /// It isn't there, by the record of the group at this index.
    Disproved(usize),
    /// It is left open, and why, where a cause is told; and by the record of which group.
    Opened(Option<Cause>, usize),
    /// The records can't be trusted, and why.
    Broken(Cause),
    /// Nothing is shown, and why, where there is a cause.
    Unshown(Option<Cause>),
}

/// What is told where the group at this index ends the call.
pub(crate) fn told_by_end(index: usize, end: End) -> Told
    ensures { result ≡ told_of (answers.told_by_end index (end_view end)) }
{
    match end {
        End::TooManyIterations => Told::Broken(Cause::Nsec3IterationsTooHigh),
        End::ManyIterations => Told::Opened(Some(Cause::Nsec3IterationsInsecure), index),
        End::BadOwnerHash => Told::Broken(Cause::Nsec3BadOwnerHash),
    }
}
