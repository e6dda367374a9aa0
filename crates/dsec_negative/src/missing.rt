//! That a name exists, denied by a record around it (RFC 4035 5.4).

ghost use Rattle.std.specs.Prelude.{◌≡◌, IfOk};
ghost use Rattle.dsec_absence.specs.Answers.{missing, nsec_for_not_exists as not_exists_of};
ghost use Rattle.dsec_negative.specs.Sources.{source_view};
ghost use Rattle.dsec_negative.specs.Told.{TellsEndOf, name_told, name_view};
ghost use Rattle.dsec_negative.specs.Views.{name_search, source_of};
ghost use Rattle.dsec_spec.specs.Names.{place};

use crate::nodata::refusal;
use crate::shown::{NameShown, shows_missing};
use crate::sighting::{Sighting, sighted};
use crate::source::Source;
use crate::state::NsecNXState;
use crate::used::Used;
use dsec_cause::Cause;
use dsec_crypto::Verifier;
use dsec_found::JudgedGroup;
use dsec_name::{Name, NoMemory};
use dsec_number::Class;
use std::alloc::Global;

/// What a search for a name came to.
#[derive(Clone, Copy)]
pub(crate) enum NameSearch {
    /// The record of the group at this index denies it, and its closest encloser has so many labels, the root's not counted.
    Found(usize, usize),
    /// A record refutes that, and why.
    Refuted(Cause),
    /// None decides, and why one was refused, if one was.
    Undecided(Option<Cause>),
}

/// Whether NSEC records among the groups, of this class and signed by this zone, deny that the target exists: the first that counts
/// decides which is the target's own, or has the target in its gap. With the closest encloser, and the index of its group.
pub fn nsec_for_not_exists<V: Verifier>(
    alloc: Global,
    target: &Name,
    groups: &[JudgedGroup<V>],
    class: Class,
    signer: &Name,
) -> Result<(NsecNXState, Option<Cause>, Used), NoMemory>
    ensures value { IfOk result (λ answer. name_view answer ≡ name_told (not_exists_of (source_of groups.now class signer.now) (place target.now))) }
    ensures letters { IfOk result (λ answer. TellsEndOf target.now answer.0) }
{
    let source = Source {
        groups,
        class,
        signer,
    };
    match search_missing(alloc, &source, target)? {
        NameSearch::Found(index, labels) => {
            let encloser = target.ancestor(alloc, labels)?;
            let used = Used::one(index);
            Ok((NsecNXState::DoesNotExist(encloser), None, used))
        }
        NameSearch::Refuted(cause) => Ok((NsecNXState::Exists, Some(cause), Used::none())),
        NameSearch::Undecided(cause) => Ok((NsecNXState::Nothing, cause, Used::none())),
    }
}

/// What the groups show of the target, which is to be missing: the first that counts and isn't silent decides.
pub(crate) fn search_missing<V: Verifier>(
    alloc: Global,
    source: &Source<'_, V>,
    target: &Name,
) -> Result<NameSearch, NoMemory>
    ensures { IfOk result (λ it. name_search target.now it ≡ missing (source_view source.now) (place target.now)) }
{
    let mut refused = false;
    for index in 0..source.groups.len() {
        let judged = &source.groups[index];
        match sighted(alloc, judged, source.class, source.signer)? {
            Sighting::Passed => {}
            Sighting::Expanded => refused = true,
            Sighting::Counts(nsec) => {
                match shows_missing(alloc, judged.group().owner(), &nsec, target)? {
                    NameShown::Silent => {}
                    NameShown::Refutes(cause) => return Ok(NameSearch::Refuted(cause)),
                    NameShown::Denies(labels) => return Ok(NameSearch::Found(index, labels)),
                }
            }
        }
    }
    Ok(NameSearch::Undecided(refusal(refused)))
}
