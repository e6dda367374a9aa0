//! What NSEC records answer of a reply that denies: of a type, of a name, and of a name for which a wildcard stands (RFC 2308 2,
//! RFC 4035 5.3.4, 5.4).

ghost use Rattle.std.specs.Prelude.{◌≡◌, IfOk};
ghost use Rattle.dsec_absence.specs.Answers.{closer_answer as closer_answer_of, nsec_for_nodata as nodata_of, nsec_for_nodata_wildcard as nodata_wildcard_of, nsec_for_nxdomain as nxdomain_of, not_exists_for_wildcard};
ghost use Rattle.dsec_absence.specs.Replies.{then_answer};
ghost use Rattle.dsec_negative.specs.Told.{answer_of};
ghost use Rattle.dsec_negative.specs.Views.{name_search, source_of};
ghost use Rattle.dsec_spec.specs.Names.{place};

use crate::answer::{Answer, then};
use crate::missing::{NameSearch, search_missing};
use crate::nodata::{search_type, type_answer};
use crate::source::Source;
use crate::star::{name_by_encloser, type_by_encloser};
use crate::used::Used;
use dsec_cause::Cause;
use dsec_chain::is_same;
use dsec_crypto::Verifier;
use dsec_found::JudgedGroup;
use dsec_name::{Name, NoMemory};
use dsec_number::{Class, Rtype};
use std::alloc::Global;

/// What NSEC records among the groups, of this class and signed by this zone, answer of a type at the target, or at the wildcard that
/// stands for it.
pub fn nsec_type_answer<V: Verifier>(
    alloc: Global,
    target: &Name,
    groups: &[JudgedGroup<V>],
    rtype: Rtype,
    class: Class,
    signer: &Name,
) -> Result<Answer, NoMemory>
    ensures { IfOk result (λ it. it ≡ answer_of (then_answer (nodata_of (source_of groups.now class signer.now) (place target.now) rtype)
        (nodata_wildcard_of (source_of groups.now class signer.now) (place target.now) rtype))) }
{
    let source = Source {
        groups,
        class,
        signer,
    };
    let own = type_answer(search_type(alloc, &source, target, rtype)?);
    let Answer::Nothing(cause) = own else {
        return Ok(own);
    };
    let below = type_by_encloser(alloc, &source, target, rtype)?;
    Ok(then(cause, below))
}

/// What they answer of the target, and of the wildcard that could stand for it.
pub fn nsec_name_answer<V: Verifier>(
    alloc: Global,
    target: &Name,
    groups: &[JudgedGroup<V>],
    class: Class,
    signer: &Name,
) -> Result<Answer, NoMemory>
    ensures { IfOk result (λ it. it ≡ answer_of (nxdomain_of (source_of groups.now class signer.now) (place target.now))) }
{
    let source = Source {
        groups,
        class,
        signer,
    };
    let (answer, _) = name_by_encloser(alloc, &source, target)?;
    Ok(answer)
}

/// What they answer of a name for which the wildcard under the closest encloser stands: it doesn't exist where a record shows just this
/// closest encloser.
pub fn nsec_closer_answer<V: Verifier>(
    alloc: Global,
    name: &Name,
    groups: &[JudgedGroup<V>],
    class: Class,
    signer: &Name,
    closest_encloser: &Name,
) -> Result<Answer, NoMemory>
    ensures { IfOk result (λ it. it ≡ answer_of (not_exists_for_wildcard (source_of groups.now class signer.now) (place name.now) (place closest_encloser.now))) }
{
    let source = Source {
        groups,
        class,
        signer,
    };
    let search = search_missing(alloc, &source, name)?;
    closer_answer(alloc, name, closest_encloser, search)
}

/// The same by what a search for the name came to.
fn closer_answer(
    alloc: Global,
    name: &Name,
    closest_encloser: &Name,
    search: NameSearch,
) -> Result<Answer, NoMemory>
    ensures { IfOk result (λ it. it ≡ answer_of (closer_answer_of (place closest_encloser.now) (name_search name.now search))) }
{
    match search {
        NameSearch::Found(index, labels) => {
            let encloser = name.ancestor(alloc, labels)?;
            if is_same(&encloser, closest_encloser) {
                Ok(Answer::Denied(Used::one(index)))
            } else {
                Ok(Answer::Refused(Cause::WildcardElsewhere))
            }
        }
        NameSearch::Refuted(cause) => Ok(Answer::Refused(cause)),
        NameSearch::Undecided(cause) => Ok(Answer::Nothing(cause)),
    }
}
