//! One step of a walk from the zone's name down to another (RFC 5155 8.3).

ghost use Rattle.std.specs.Prelude.{◌≡◌, ℕ, take};
ghost use Rattle.dsec_nsec3.specs.Walks as walks;
ghost use Rattle.dsec_nsec3_calls.specs.Looks.{look_view, top_of};
ghost use Rattle.dsec_nsec3_calls.specs.Walked.{candidate_view, step_to};
ghost use Rattle.dsec_spec.specs.Names.{Labels, place};

use crate::gone::Gone;
use crate::look::Look;
use crate::sighting::End;

/// By what the name before the one looked at may be the closest encloser.
#[derive(Clone, Copy)]
pub(crate) enum Candidate {
    /// Not at all.
    Nothing,
    /// As the zone's own name.
    Signer,
    /// By the record of the group at this index.
    MatchedBy(usize),
}

/// What a walk comes to.
#[derive(Clone, Copy)]
pub(crate) enum Walk {
    /// The name is missing.
    Gone(Gone),
    /// A DNAME or a delegation stands above the name, or at it.
    Barred,
    /// The group at this index ends the call.
    Halted(usize, End),
    /// A record needs a hash, and no more are made.
    Exhausted,
    /// No candidate has a covered name next to it.
    Unfound,
}

/// Whether a walk goes on.
#[derive(Clone, Copy)]
pub(crate) enum Step {
    /// It does, with this candidate.
    On(Candidate),
    /// It ends.
    Ends(Walk),
}

/// By what groups show of the name next to that of so many labels, with the candidate so far.
pub(crate) fn next_step(look: Look, above: Candidate, labels: usize) -> Step
    ensures { (name : Labels) (left : ℕ) (later : walks.Candidate → ℕ → walks.Walk)
        → step_to name result left later ≡ walks.step (look_view look left) (take labels (place name)) (candidate_view above) later }
{
    match look {
        Look::Matched(index) => Step::On(Candidate::MatchedBy(index)),
        Look::Covered(index, opt_out) => at_covered(above, labels, index, opt_out),
        Look::Unseen => Step::On(Candidate::Nothing),
        Look::Bars => Step::Ends(Walk::Barred),
        Look::Halts(index, end) => Step::Ends(Walk::Halted(index, end)),
        Look::Exhausts => Step::Ends(Walk::Exhausted),
    }
}

/// At a covered name: it is missing where the name before it is a candidate.
fn at_covered(above: Candidate, labels: usize, around: usize, opt_out: bool) -> Step
    ensures { (name : Labels) (left : ℕ) (later : walks.Candidate → ℕ → walks.Walk)
        → step_to name result left later ≡ walks.at_covered (take labels (place name)) (candidate_view above) around opt_out (later walks.no_candidate left) }
{
    let at_encloser = match above {
        Candidate::Nothing => return Step::On(Candidate::Nothing),
        Candidate::Signer => None,
        Candidate::MatchedBy(index) => Some(index),
    };
    Step::Ends(Walk::Gone(Gone {
        labels,
        at_encloser,
        around,
        opt_out,
    }))
}

/// Whether the candidate is the zone's own name.
pub(crate) fn is_signer(above: Candidate) -> bool
    ensures { (signer : Labels) → top_of result (place signer) ≡ walks.top_by (place signer) (candidate_view above) }
{
    matches!(above, Candidate::Signer)
}
