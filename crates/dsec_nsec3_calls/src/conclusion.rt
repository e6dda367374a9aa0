//! What a reply that denies comes to, by its NSEC records and then by its NSEC3 records (RFC 2308 2, RFC 4035 5.4, RFC 5155 8).

ghost use Rattle.std.specs.Prelude.{◌≡◌, ℕ, IfOk};
ghost use Rattle.dsec_absence.specs.Answers as nsec_answers;
ghost use Rattle.dsec_nsec3.specs.Conclusions.{closer_by_hash as closer_by, closer_denied as closer_of, concluded, concluded_by_hash, denied_at as denied_of, name_denied as name_of, then_told, type_denied as type_of, without_cause as without};
ghost use Rattle.dsec_nsec3.specs.HashedAnswers as answers;
ghost use Rattle.dsec_nsec3.specs.HashedDenials.{HashedDenial};
ghost use Rattle.dsec_nsec3_calls.specs.Answers.{answer_of, concluded_to, conclusion_of};
ghost use Rattle.dsec_nsec3_calls.specs.Sources.{limits_view, source_view};
ghost use Rattle.dsec_nsec3_calls.specs.Views.{hash_limits, source_of};
ghost use Rattle.dsec_negative.specs.Told.{answer_of as nsec_answer_of};
ghost use Rattle.dsec_spec.specs.Names.{place};

use crate::answer::{HashedAnswer, answered};
use crate::covering::search_cover;
use crate::nodata::{type_answer, type_by_encloser};
use crate::nxdomain::name_answer;
use crate::source::Source;
use dsec_cause::Cause;
use dsec_chain::is_below;
use dsec_crypto::Verifier;
use dsec_group::{Limits, Memo};
use dsec_name::{Name, NoMemory};
use dsec_negative::{
    Answer, JudgedGroup, Used, nsec_closer_answer, nsec_name_answer, nsec_type_answer,
};
use dsec_number::{Class, Rtype};
use std::alloc::Global;

/// What a reply that denies comes to.
#[derive(Drop)]
pub enum Conclusion {
    /// What it denies is proved, by the records of these groups.
    Proved(Used),
    /// It is left open, and why, where a cause is told; and by the NSEC3 record of the group at this index.
    LeftOpen(Option<Cause>, usize),
    /// It isn't proved, and why.
    Unproved(Cause),
}

/// What the groups prove at the target, where they are of this class and signed by this zone: without an error that the type doesn't stand
/// there, and else that the target doesn't exist. NSEC records are tried first.
pub fn denied_at<V: Verifier>(
    alloc: Global,
    no_error: bool,
    target: &Name,
    groups: &[JudgedGroup<V>],
    rtype: Rtype,
    class: Class,
    signer: &Name,
    limits: &Limits,
    memo: &mut impl Memo<V>,
) -> Result<Conclusion, NoMemory>
    ensures { IfOk result (λ it. it ≡ conclusion_of (denied_of (hash_limits limits.now) no_error (source_of groups.now class signer.now) (place target.now) rtype)) }
{
    let source = Source {
        groups,
        class,
        signer,
        limits,
    };
    if no_error {
        type_denied::<V>(alloc, &source, target, rtype, memo)
    } else {
        name_denied::<V>(alloc, &source, target, memo)
    }
}

/// What they prove of a type at the target, or at the wildcard that stands for it.
fn type_denied<V: Verifier>(
    alloc: Global,
    source: &Source<'_, V>,
    target: &Name,
    rtype: Rtype,
    memo: &mut impl Memo<V>,
) -> Result<Conclusion, NoMemory>
    ensures { IfOk result (λ it. it ≡ conclusion_of (type_of (limits_view source.now) (source_view source.now) (place target.now) rtype)) }
{
    let (groups, class, signer) = (source.groups, source.class, source.signer);
    let answer = nsec_type_answer(alloc, target, groups, rtype, class, signer)?;
    match by_nsec(answer) {
        Ok(conclusion) => Ok(conclusion),
        Err(cause) => {
            let answer = hashed_type_answer::<V>(alloc, source, target, rtype, memo)?;
            Ok(by_hash(cause, answer))
        }
    }
}

/// What NSEC3 records answer of a type at the target, or at the wildcard that stands for it.
fn hashed_type_answer<V: Verifier>(
    alloc: Global,
    source: &Source<'_, V>,
    target: &Name,
    rtype: Rtype,
    memo: &mut impl Memo<V>,
) -> Result<HashedAnswer, NoMemory>
    ensures { IfOk result (λ it. it ≡ answer_of (then_told (answers.nsec3_for_nodata (limits_view source.now) (source_view source.now) (place target.now) rtype)
        (answers.nsec3_for_nodata_wildcard (limits_view source.now) (source_view source.now) (place target.now) rtype))) }
{
    let own = type_answer::<V>(source, target, rtype, memo);
    let HashedAnswer::Nothing(cause) = own else {
        return Ok(own);
    };
    let below = type_by_encloser::<V>(alloc, source, target, rtype, memo)?;
    Ok(then(cause, below))
}

/// What the groups prove of the target, and of the wildcard that could stand for it.
fn name_denied<V: Verifier>(
    alloc: Global,
    source: &Source<'_, V>,
    target: &Name,
    memo: &mut impl Memo<V>,
) -> Result<Conclusion, NoMemory>
    ensures { IfOk result (λ it. it ≡ conclusion_of (name_of (limits_view source.now) (source_view source.now) (place target.now))) }
{
    let answer = nsec_name_answer(alloc, target, source.groups, source.class, source.signer)?;
    match by_nsec(answer) {
        Ok(conclusion) => Ok(conclusion),
        Err(cause) => {
            let answer = name_answer::<V>(alloc, source, target, memo)?;
            Ok(by_hash(cause, answer))
        }
    }
}

/// What the groups prove of a name for which the wildcard under the closest encloser stands, where they are of this class and signed by
/// this zone: that it doesn't exist. NSEC3 records are read where the next closer name is at or below the zone's.
pub fn closer_denied<V: Verifier>(
    alloc: Global,
    name: &Name,
    groups: &[JudgedGroup<V>],
    class: Class,
    signer: &Name,
    closest_encloser: &Name,
    limits: &Limits,
    memo: &mut impl Memo<V>,
) -> Result<Conclusion, NoMemory>
    ensures { IfOk result (λ it. it ≡ conclusion_of (closer_of (hash_limits limits.now) (source_of groups.now class signer.now) (place name.now) (place closest_encloser.now))) }
{
    let source = Source {
        groups,
        class,
        signer,
        limits,
    };
    let answer = nsec_closer_answer(alloc, name, groups, class, signer, closest_encloser)?;
    match by_nsec(answer) {
        Ok(conclusion) => Ok(conclusion),
        Err(cause) => {
            let answer = closer_by_hash::<V>(alloc, &source, name, closest_encloser, memo)?;
            Ok(by_hash(cause, answer))
        }
    }
}

/// What NSEC3 records answer of the next closer name.
fn closer_by_hash<V: Verifier>(
    alloc: Global,
    source: &Source<'_, V>,
    name: &Name,
    closest_encloser: &Name,
    memo: &mut impl Memo<V>,
) -> Result<HashedAnswer, NoMemory>
    ensures { IfOk result (λ it. it ≡ answer_of (closer_by (limits_view source.now) (source_view source.now) (place name.now) (place closest_encloser.now))) }
{
    let next = name.ancestor(alloc, closest_encloser.label_count())?;
    if !is_below(&next, source.signer) {
        return Ok(HashedAnswer::Nothing(None));
    }
    let told = search_cover::<V>(source, &next, memo);
    Ok(without_cause(answered(told)))
}

/// The same answer, without its cause where it leaves the name open.
fn without_cause(answer: HashedAnswer) -> HashedAnswer
    ensures { (told : answers.Hashed (HashedDenial ℕ)) → answer ≡ answer_of told → result ≡ answer_of (without told) }
{
    match answer {
        HashedAnswer::LeftOpen(_, index) => HashedAnswer::LeftOpen(None, index),
        answer => answer,
    }
}

/// What NSEC records prove; the cause that is left where they show nothing.
fn by_nsec(answer: Answer) -> Result<Conclusion, Option<Cause>>
    ensures { (told : nsec_answers.Answer) (later : answers.Hashed (HashedDenial ℕ)) → answer ≡ nsec_answer_of told → concluded_to result later ≡ conclusion_of (concluded told later) }
{
    match answer {
        Answer::Denied(used) => Ok(Conclusion::Proved(used)),
        Answer::Refused(cause) => Ok(Conclusion::Unproved(cause)),
        Answer::Nothing(cause) => Err(cause),
    }
}

/// What NSEC3 records prove, where NSEC records showed nothing, and why; the last cause is left.
fn by_hash(cause: Option<Cause>, answer: HashedAnswer) -> Conclusion
    ensures { (told : answers.Hashed (HashedDenial ℕ)) → answer ≡ answer_of told → result ≡ conclusion_of (concluded_by_hash cause told) }
{
    match answer {
        HashedAnswer::Denied(used) => Conclusion::Proved(used),
        HashedAnswer::LeftOpen(why, index) => Conclusion::LeftOpen(why, index),
        HashedAnswer::Broken(why) => Conclusion::Unproved(why),
        HashedAnswer::Nothing(later) => {
            Conclusion::Unproved(later.or(cause).unwrap_or(Cause::NoDenialProof))
        }
    }
}

/// The later answer, where the earlier one shows nothing; the last cause is left.
fn then(cause: Option<Cause>, later: HashedAnswer) -> HashedAnswer
    ensures { (told : answers.Hashed (HashedDenial ℕ)) → later ≡ answer_of told → result ≡ answer_of (then_told (answers.unshown cause) told) }
{
    match later {
        HashedAnswer::Nothing(None) => HashedAnswer::Nothing(cause),
        later => later,
    }
}
