//! That a type stands at a name, denied by the name's own record (RFC 4035 3.1.3.1, 5.4).

ghost use Rattle.std.specs.Prelude.{◌≡◌, IfOk};
ghost use Rattle.dsec_absence.specs.Answers.{nsec_for_nodata as nodata_of, type_answer as type_answer_of, type_at};
ghost use Rattle.dsec_negative.specs.Sources.{source_view};
ghost use Rattle.dsec_negative.specs.Told.{answer_of, nodata_told, refusal_cause};
ghost use Rattle.dsec_negative.specs.Views.{source_of, type_search};
ghost use Rattle.dsec_spec.specs.Names.{place};

use crate::answer::{Answer, nodata};
use crate::shown::{TypeShown, shows_type};
use crate::sighting::{Sighting, sighted};
use crate::source::Source;
use crate::state::NsecState;
use crate::used::Used;
use dsec_cause::Cause;
use dsec_crypto::Verifier;
use dsec_found::JudgedGroup;
use dsec_name::{Name, NoMemory};
use dsec_number::{Class, Rtype};
use std::alloc::Global;

/// What a search for a type came to.
#[derive(Clone, Copy)]
pub(crate) enum TypeSearch {
    /// The record of the group at this index denies it.
    Found(usize),
    /// A record refutes that, and why.
    Refuted(Cause),
    /// None decides, and why one was refused, if one was.
    Undecided(Option<Cause>),
}

/// Whether NSEC records among the groups, of this class and signed by this zone, deny that the type stands at the target: the first
/// that counts decides which is the target's own, or shows that the target has names under it and no set. With the index of its group.
pub fn nsec_for_nodata<V: Verifier>(
    alloc: Global,
    target: &Name,
    groups: &[JudgedGroup<V>],
    rtype: Rtype,
    class: Class,
    signer: &Name,
) -> Result<(NsecState, Option<Cause>, Used), NoMemory>
    ensures { IfOk result (λ answer. answer ≡ nodata_told (nodata_of (source_of groups.now class signer.now) (place target.now) rtype)) }
{
    let source = Source {
        groups,
        class,
        signer,
    };
    let answer = type_answer(search_type(alloc, &source, target, rtype)?);
    Ok(nodata(answer))
}

/// What a search for a type answers.
pub(crate) fn type_answer(search: TypeSearch) -> Answer
    ensures { result ≡ answer_of (type_answer_of (type_search search)) }
{
    match search {
        TypeSearch::Found(index) => Answer::Denied(Used::one(index)),
        TypeSearch::Refuted(cause) => Answer::Nothing(Some(cause)),
        TypeSearch::Undecided(cause) => Answer::Nothing(cause),
    }
}

/// What the groups show of a type at the target: the first that counts and isn't silent decides.
pub(crate) fn search_type<V: Verifier>(
    alloc: Global,
    source: &Source<'_, V>,
    target: &Name,
    rtype: Rtype,
) -> Result<TypeSearch, NoMemory>
    ensures { IfOk result (λ it. type_search it ≡ type_at (source_view source.now) (place target.now) rtype) }
{
    let mut refused = false;
    for index in 0..source.groups.len() {
        let judged = &source.groups[index];
        match sighted(alloc, judged, source.class, source.signer)? {
            Sighting::Passed => {}
            Sighting::Expanded => refused = true,
            Sighting::Counts(nsec) => {
                match shows_type(alloc, judged.group().owner(), &nsec, target, rtype)? {
                    TypeShown::Silent => {}
                    TypeShown::Refutes(cause) => return Ok(TypeSearch::Refuted(cause)),
                    TypeShown::Denies => return Ok(TypeSearch::Found(index)),
                }
            }
        }
    }
    Ok(TypeSearch::Undecided(refusal(refused)))
}

/// Why a group was refused, where one was.
pub(crate) fn refusal(refused: bool) -> Option<Cause>
    ensures { result ≡ refusal_cause refused }
{
    if refused {
        Some(Cause::NsecFromWildcard)
    } else {
        None
    }
}
