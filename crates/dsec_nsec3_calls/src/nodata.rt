//! That a type stands at a name, or at the wildcard that stands for it, denied (RFC 5155 8.5 to 8.7).

ghost use Rattle.std.specs.Prelude.{◌≡◌, ℕ, IfOk};
ghost use Rattle.dsec_nsec3.specs.HashedAnswers as answers;
ghost use Rattle.dsec_nsec3.specs.HashedAnswers.{nsec3_for_nodata as nodata_of, nsec3_for_nodata_wildcard as nodata_wildcard_of};
ghost use Rattle.dsec_nsec3.specs.HashedDenials.{HashedDenial, wildcard_type_gone};
ghost use Rattle.dsec_nsec3.specs.Walks as walks;
ghost use Rattle.dsec_nsec3_calls.specs.Answers.{answer_of};
ghost use Rattle.dsec_nsec3_calls.specs.Sources.{limits_view, source_view};
ghost use Rattle.dsec_nsec3_calls.specs.Told.{nodata_told};
ghost use Rattle.dsec_nsec3_calls.specs.Views.{hash_limits, source_of};
ghost use Rattle.dsec_spec.specs.Names.{place};
ghost use Rattle.dsec_spec.specs.SignedBytes.{rightmost};

use crate::answer::{HashedAnswer, answered, missing, of_both};
use crate::gone::Gone;
use crate::source::Source;
use crate::state::Nsec3State;
use crate::types::type_by_hash;
use crate::walk::walk;
use dsec_cause::Cause;
use dsec_crypto::Verifier;
use dsec_group::{Limits, Memo};
use dsec_name::{Name, NoMemory};
use dsec_negative::{JudgedGroup, Used, star_at};
use dsec_number::{Class, Rtype};
use std::alloc::Global;

/// Whether NSEC3 records among the groups, of this class and signed by this zone, deny that the type stands at the target: the first that
/// counts and matches the target decides; of DS the target's closest encloser does first. With the cause, and the index of the group. It
/// takes no memory.
pub fn nsec3_for_nodata<V: Verifier>(
    target: &Name,
    groups: &[JudgedGroup<V>],
    rtype: Rtype,
    class: Class,
    signer: &Name,
    limits: &Limits,
    memo: &mut impl Memo<V>,
) -> (Nsec3State, Option<Cause>, Used)
    ensures { result ≡ nodata_told (nodata_of (hash_limits limits.now) (source_of groups.now class signer.now) (place target.now) rtype) }
{
    let source = Source {
        groups,
        class,
        signer,
        limits,
    };
    told(type_answer::<V>(&source, target, rtype, memo))
}

/// Whether they deny that the target exists, and that the type stands at the wildcard under its closest encloser. With the cause, and the
/// indexes of the groups.
pub fn nsec3_for_nodata_wildcard<V: Verifier>(
    alloc: Global,
    target: &Name,
    groups: &[JudgedGroup<V>],
    rtype: Rtype,
    class: Class,
    signer: &Name,
    limits: &Limits,
    memo: &mut impl Memo<V>,
) -> Result<(Nsec3State, Option<Cause>, Used), NoMemory>
    ensures { IfOk result (λ it. it ≡ nodata_told (nodata_wildcard_of (hash_limits limits.now) (source_of groups.now class signer.now) (place target.now) rtype)) }
{
    let source = Source {
        groups,
        class,
        signer,
        limits,
    };
    let answer = type_by_encloser::<V>(alloc, &source, target, rtype, memo)?;
    Ok(told(answer))
}

/// What the groups answer of a type at the target.
pub(crate) fn type_answer<V: Verifier>(
    source: &Source<'_, V>,
    target: &Name,
    rtype: Rtype,
    memo: &mut impl Memo<V>,
) -> HashedAnswer
    ensures { result ≡ answer_of (nodata_of (limits_view source.now) (source_view source.now) (place target.now) rtype) }
{
    answered(type_by_hash::<V>(source, target, rtype, memo))
}

/// What they answer of a type at the wildcard that stands for the target.
pub(crate) fn type_by_encloser<V: Verifier>(
    alloc: Global,
    source: &Source<'_, V>,
    target: &Name,
    rtype: Rtype,
    memo: &mut impl Memo<V>,
) -> Result<HashedAnswer, NoMemory>
    ensures { IfOk result (λ answer. answer ≡ answer_of (nodata_wildcard_of (limits_view source.now) (source_view source.now) (place target.now) rtype)) }
{
    let (walk, _) = walk::<V>(source, target, memo);
    match missing(walk) {
        Ok(gone) => type_at_star::<V>(alloc, source, target, &gone, rtype, memo),
        Err(answer) => Ok(answer),
    }
}

/// The same where the target is missing.
fn type_at_star<V: Verifier>(
    alloc: Global,
    source: &Source<'_, V>,
    target: &Name,
    gone: &Gone,
    rtype: Rtype,
    memo: &mut impl Memo<V>,
) -> Result<HashedAnswer, NoMemory>
    ensures { IfOk result (λ answer. (walk : walks.Walk) → walk ≡ walks.gone (place (rightmost gone.now.labels target.now)) gone.now.at_encloser gone.now.around gone.now.opt_out
        → answer ≡ answer_of (answers.told_by_walk (place target.now) (λ star. answers.type_by_hash (limits_view source.now) (source_view source.now) star rtype) wildcard_type_gone walk)) }
{
    let Some(star) = star_at(alloc, target, gone.labels)? else {
        return Ok(HashedAnswer::Broken(Cause::WildcardTooLong));
    };
    let told = type_by_hash::<V>(source, &star, rtype, memo);
    Ok(of_both(gone, told))
}

/// An answer of a type, as the calls tell it.
fn told(answer: HashedAnswer) -> (Nsec3State, Option<Cause>, Used)
    ensures { (tells : answers.Hashed (HashedDenial ℕ)) → answer ≡ answer_of tells → result ≡ nodata_told tells }
{
    match answer {
        HashedAnswer::Denied(used) => (Nsec3State::NoData, None, used),
        HashedAnswer::LeftOpen(cause, index) => {
            (Nsec3State::NoDataInsecure, cause, Used::one(index))
        }
        HashedAnswer::Broken(cause) => (Nsec3State::Bogus, Some(cause), Used::none()),
        HashedAnswer::Nothing(cause) => (Nsec3State::Nothing, cause, Used::none()),
    }
}
