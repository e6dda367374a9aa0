//! What stands at the wildcard that may stand for a missing name, denied (RFC 4035 3.1.3.2, 3.1.3.4, RFC 4592 3.3.1).

ghost use Rattle.std.specs.Prelude.{◌≡◌, ◌∷◌, IfOk, IfSome};
ghost use Rattle.std.specs.Option.{option_map};
ghost use Rattle.dsec_absence.specs.Answers.{name_by_star as name_by_star_of, nsec_for_nodata_wildcard as nodata_wildcard_of, nsec_for_nxdomain as nxdomain_of, star_closest_encloser as star_of, type_by_star as type_by_star_of};
ghost use Rattle.dsec_negative.specs.Sources.{source_view};
ghost use Rattle.dsec_negative.specs.Told.{IsEncloserIn, TellsEndOf, answer_of, name_told, name_view, nodata_told};
ghost use Rattle.dsec_negative.specs.Views.{source_of};
ghost use Rattle.dsec_spec.specs.Names.{asterisk, place};
ghost use Rattle.dsec_spec.specs.SignedBytes.{rightmost};

use crate::answer::{Answer, nodata};
use crate::encloser::star_closest_encloser;
use crate::missing::{NameSearch, search_missing};
use crate::nodata::{TypeSearch, search_type};
use crate::source::Source;
use crate::state::{NsecNXState, NsecState};
use crate::used::Used;
use dsec_cause::Cause;
use dsec_crypto::Verifier;
use dsec_found::JudgedGroup;
use dsec_name::{Name, NoMemory, PushNameError};
use dsec_number::{Class, Rtype};
use std::alloc::Global;

/// Whether NSEC records among the groups, of this class and signed by this zone, deny that the target exists, and that the type
/// stands at the wildcard under its closest encloser. With the indexes of the groups of both records.
pub fn nsec_for_nodata_wildcard<V: Verifier>(
    alloc: Global,
    target: &Name,
    groups: &[JudgedGroup<V>],
    rtype: Rtype,
    class: Class,
    signer: &Name,
) -> Result<(NsecState, Option<Cause>, Used), NoMemory>
    ensures { IfOk result (λ answer. answer ≡ nodata_told (nodata_wildcard_of (source_of groups.now class signer.now) (place target.now) rtype)) }
{
    let source = Source {
        groups,
        class,
        signer,
    };
    let answer = type_by_encloser(alloc, &source, target, rtype)?;
    Ok(nodata(answer))
}

/// What the groups answer of a type at the wildcard that stands for the target.
pub(crate) fn type_by_encloser<V: Verifier>(
    alloc: Global,
    source: &Source<'_, V>,
    target: &Name,
    rtype: Rtype,
) -> Result<Answer, NoMemory>
    ensures { IfOk result (λ answer. answer ≡ answer_of (nodata_wildcard_of (source_view source.now) (place target.now) rtype)) }
{
    match search_missing(alloc, source, target)? {
        NameSearch::Found(index, labels) => {
            type_by_star(alloc, source, target, rtype, index, labels)
        }
        NameSearch::Refuted(cause) => Ok(Answer::Nothing(Some(cause))),
        NameSearch::Undecided(cause) => Ok(Answer::Nothing(cause)),
    }
}

/// The same, where the record of the group at this index shows the target missing, and a closest encloser of so many labels.
fn type_by_star<V: Verifier>(
    alloc: Global,
    source: &Source<'_, V>,
    target: &Name,
    rtype: Rtype,
    index: usize,
    labels: usize,
) -> Result<Answer, NoMemory>
    ensures { IfOk result (λ answer. answer ≡ answer_of (type_by_star_of (source_view source.now) rtype (place (rightmost labels target.now)) index (star_of (place (rightmost labels target.now))))) }
{
    let Some(star) = star_at(alloc, target, labels)? else {
        return Ok(Answer::Nothing(Some(Cause::WildcardTooLong)));
    };
    let answer = match search_type(alloc, source, &star, rtype)? {
        TypeSearch::Found(other) => Answer::Denied(Used::two(index, other)),
        TypeSearch::Refuted(cause) => Answer::Nothing(Some(cause)),
        TypeSearch::Undecided(cause) => Answer::Nothing(cause),
    };
    Ok(answer)
}

/// Whether NSEC records among the groups, of this class and signed by this zone, deny that the target exists, and that the wildcard
/// under its closest encloser does. With the closest encloser, and the indexes of the groups of both records.
pub fn nsec_for_nxdomain<V: Verifier>(
    alloc: Global,
    target: &Name,
    groups: &[JudgedGroup<V>],
    class: Class,
    signer: &Name,
) -> Result<(NsecNXState, Option<Cause>, Used), NoMemory>
    ensures value { IfOk result (λ answer. name_view answer ≡ name_told (nxdomain_of (source_of groups.now class signer.now) (place target.now))) }
    ensures letters { IfOk result (λ answer. TellsEndOf target.now answer.0) }
{
    let source = Source {
        groups,
        class,
        signer,
    };
    let (answer, labels) = name_by_encloser(alloc, &source, target)?;
    match answer {
        Answer::Denied(used) => {
            let encloser = target.ancestor(alloc, labels)?;
            Ok((NsecNXState::DoesNotExist(encloser), None, used))
        }
        Answer::Refused(cause) => Ok((NsecNXState::Exists, Some(cause), Used::none())),
        Answer::Nothing(cause) => Ok((NsecNXState::Nothing, cause, Used::none())),
    }
}

/// What the groups answer of the target and the wildcard that may stand for it; and how many labels its closest encloser has, where
/// both are denied.
pub(crate) fn name_by_encloser<V: Verifier>(
    alloc: Global,
    source: &Source<'_, V>,
    target: &Name,
) -> Result<(Answer, usize), NoMemory>
    ensures answer { IfOk result (λ it. it.0 ≡ answer_of (nxdomain_of (source_view source.now) (place target.now))) }
    ensures encloser { IfOk result (λ it. IsEncloserIn (place (rightmost it.1 target.now)) (nxdomain_of (source_view source.now) (place target.now))) }
{
    match search_missing(alloc, source, target)? {
        NameSearch::Found(index, labels) => {
            let answer = name_by_star(alloc, source, target, index, labels)?;
            Ok((answer, labels))
        }
        NameSearch::Refuted(cause) => Ok((Answer::Nothing(Some(cause)), 0)),
        NameSearch::Undecided(cause) => Ok((Answer::Nothing(cause), 0)),
    }
}

/// The same, where the record of the group at this index shows the target missing, and a closest encloser of so many labels.
fn name_by_star<V: Verifier>(
    alloc: Global,
    source: &Source<'_, V>,
    target: &Name,
    index: usize,
    labels: usize,
) -> Result<Answer, NoMemory>
    ensures { IfOk result (λ answer. answer ≡ answer_of (name_by_star_of (source_view source.now) (place (rightmost labels target.now)) index (star_of (place (rightmost labels target.now))))) }
{
    let Some(star) = star_at(alloc, target, labels)? else {
        return Ok(Answer::Nothing(Some(Cause::WildcardTooLong)));
    };
    let answer = match search_missing(alloc, source, &star)? {
        NameSearch::Found(other, _) => Answer::Denied(Used::two(index, other)),
        NameSearch::Refuted(cause) => Answer::Refused(cause),
        NameSearch::Undecided(cause) => Answer::Nothing(cause),
    };
    Ok(answer)
}

/// The wildcard under the name of so many of the target's last labels, where it is a name.
pub fn star_at(alloc: Global, target: &Name, labels: usize) -> Result<Option<Name>, NoMemory>
    ensures place { IfOk result (λ star. option_map (λ name. place name) star ≡ star_of (place (rightmost labels target.now))) }
    ensures letters { IfOk result (λ star. IfSome star (λ name. name ≡ asterisk ∷ rightmost labels target.now)) }
{
    let encloser = target.ancestor(alloc, labels)?;
    match star_closest_encloser(alloc, &encloser) {
        Ok(star) => Ok(Some(star)),
        Err(PushNameError::PushNameError) => Ok(None),
        Err(PushNameError::NoMemory) => Err(NoMemory),
    }
}
