//! What judging the groups of a section came to (RFC 4033 5, RFC 4035 5).

ghost use Rattle.std.specs.Prelude.{◌≡◌, IfOk};
ghost use Rattle.dsec_found.specs.Outcomes.{and_next as and_next_of, section_view};

use crate::judged::JudgedGroup;
use crate::shared::SharedLinks;
use dsec_cause::Cause;
use dsec_crypto::Verifier;
use dsec_name::NoMemory;

/// What judging the groups of a section came to.
#[derive(Drop)]
pub enum AllJudged<V: Verifier> {
    /// All are judged, in order, and none is bogus.
    All(Vec<JudgedGroup<V>>),
    /// One is bogus, and why, with the links to the zone whose keys were tried with it, or none where its node is bogus. Those after it
    /// aren't judged.
    OneBogus(Cause, SharedLinks<V>),
}

/// What judging comes to where all groups so far are judged, and this one is the next.
pub fn and_next<V: Verifier>(
    judged: Vec<JudgedGroup<V>>,
    next: JudgedGroup<V>,
) -> Result<AllJudged<V>, NoMemory>
    ensures { IfOk result (λ all. section_view all ≡ and_next_of judged.items next next.finding) }
{
    if let Some((cause, links)) = next.bogus()? {
        return Ok(AllJudged::OneBogus(cause, links));
    }
    let mut judged = judged;
    judged.push(next)?;
    Ok(AllJudged::All(judged))
}
