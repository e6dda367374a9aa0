//! A message read: its groups, which are still to be judged (RFC 1035 4.1, RFC 6672 3.1).

ghost use Rattle.std.specs.Prelude.{◌≡◌, ◌++◌, ℕ, List, IfOk, OnOk, Some, Ok};
ghost use Rattle.dsec_spec.specs.Messages.{rcode_of};
ghost use Rattle.dsec_spec.specs.Groups as grouping;
ghost use Rattle.dsec_spec.specs.Reading.{Gives};
ghost use Rattle.dsec_spec.specs.Records as records;
ghost use Rattle.dsec_course.specs.Advancing.{beginning as beginning_of, begun as begun_of, begun_by};
ghost use Rattle.dsec_found.specs.Errors.{wants_memory};
ghost use Rattle.dsec_group.specs.Reading.{in_groups};
ghost use Rattle.dsec_group.specs.declared.seed.Seed.{Seed};
ghost use Rattle.dsec_message.specs.declared.sections.Sections.{Sections};
ghost use Rattle.dsec_core.specs.Progress.{MovesOrEnds, OpensWith, first_wait, read_as};
ghost use Rattle.dsec_core.specs.Views.{waits_view};

use super::{Course, Waits};
use dsec_cause::Cause;
use dsec_crypto::Verifier;
use dsec_found::Error;
use dsec_group::{Group, GroupSet, GroupedSections, read_groups};
use dsec_message::Message;
use dsec_name::NoMemory;
use dsec_number::Rcode;
use dsec_wire::{Question, Record};
use std::alloc::Global;
use std::collections::VecDeque;

/// A message read, to be judged from these anchors, of which so many bare CNAME records are followed, and so many aliases.
pub(crate) fn begun<V: Verifier>(
    alloc: Global,
    anchors: &[Record],
    most: u8,
    message: &Message,
) -> Result<Course<V>, Error>
    ensures { Gives wants_memory (λ course. course) result (read_as (begun_of anchors.now most message.now)) }
{
    // Copied before there is anything to let go of.
    let octets = octets_of(alloc, message)?;
    let (sections, at) = read_groups(alloc, message)?;
    let rcode = message.rcode_before(alloc, at)?;
    Ok(by_groups(alloc, anchors, most, octets, rcode, sections)?)
}

/// The same by the groups of the sections.
fn by_groups<V: Verifier>(
    alloc: Global,
    anchors: &[Record],
    most: u8,
    message: Vec<u8>,
    rcode: Rcode,
    groups: GroupedSections,
) -> Result<Course<V>, NoMemory>
    requires { rcode_of message.items ≡ Some rcode }
    ensures { (seed : Seed) (sections : Sections) → groups ≡ in_groups seed sections
        → IfOk result (λ course. Ok course ≡ begun_by anchors.now most message.items (Some (sections.question, sections.answer, sections.authority))) }
{
    let mut groups = groups;
    let ends = moved_or_ended(anchors, most, &mut groups.answer)?;
    let GroupedSections {
        question,
        answer,
        authority,
    } = groups;
    let opening = opened_by(alloc, ends, answer, authority)?;
    Ok(beginning(alloc, most, message, rcode, question.into_vec(), opening))
}

/// What a course begins with.
#[derive(Drop)]
struct Opening {
    /// The groups that are to be judged, in order.
    left: Vec<Group>,
    /// How many of them are the answer section's.
    answers: usize,
    /// Why it ends at once, where it does.
    ends: Option<Cause>,
}

/// What a course begins with by the groups of its sections, whose bare CNAME records were moved; or it ends at once, for a cause.
fn opened_by(
    alloc: Global,
    ends: Option<Cause>,
    answers: GroupSet,
    authorities: GroupSet,
) -> Result<Opening, NoMemory>
    ensures { (anchors : List records.Record) (most : ℕ) (before : List grouping.Group) → MovesOrEnds anchors most before answers.groups ends
        → IfOk result (λ it. OpensWith anchors most before authorities.groups it.answers it.left.items (first_wait it.ends)) }
{
    match ends {
        Some(cause) => {
            drop(answers);
            drop(authorities);
            Ok(Opening {
                left: Vec::new(alloc),
                answers: 0,
                ends: Some(cause),
            })
        }
        None => {
            let count = answers.len();
            let left = in_order(answers, authorities)?;
            Ok(Opening {
                left,
                answers: count,
                ends: None,
            })
        }
    }
}

/// The bare CNAME records of the answer section's groups are moved; or there are too many of them, and the message ends for this
/// cause.
#[tactic(auto, using(crate::proofs::ReadSteps::moves_or_ends))]
fn moved_or_ended(
    anchors: &[Record],
    most: u8,
    answers: &mut GroupSet,
) -> Result<Option<Cause>, NoMemory>
    ensures { IfOk result (λ cause. MovesOrEnds anchors.now most answers.old.groups answers.new.groups cause) }
{
    answers.move_redundant_cnames(anchors, most)
}

/// A course with nothing behind it.
fn beginning<V: Verifier>(
    alloc: Global,
    most: u8,
    message: Vec<u8>,
    rcode: Rcode,
    questions: Vec<Question>,
    opening: Opening,
) -> Course<V>
    requires { rcode_of message.items ≡ Some rcode }
    ensures { result ≡ beginning_of most message.items questions.items opening.answers opening.left.items (first_wait opening.ends) }
{
    Course {
        message,
        rcode,
        questions,
        most,
        answers: opening.answers,
        left: VecDeque::from_vec(opening.left),
        judged: Vec::new(alloc),
        walks: Vec::new(alloc),
        waits: first_wait_by(opening.ends),
    }
}

/// What a message waits for first: to begin, or to end, for this cause.
fn first_wait_by<V: Verifier>(ends: Option<Cause>) -> Waits<V>
    ensures { waits_view result ≡ first_wait ends }
{
    match ends {
        Some(cause) => Waits::ToEnd(cause),
        None => Waits::ToBegin,
    }
}

/// The groups of both sections, in order.
fn in_order(answers: GroupSet, authorities: GroupSet) -> Result<Vec<Group>, NoMemory>
    ensures { IfOk result (λ all. all.items ≡ answers.groups ++ authorities.groups) }
{
    let mut all = answers.into_vec();
    let mut others = authorities.into_vec();
    all.append(&mut others)?;
    Ok(all)
}

/// A copy of a message's octets.
fn octets_of(alloc: Global, message: &Message) -> Result<Vec<u8>, NoMemory>
    ensures { IfOk result (λ octets. octets.items ≡ message.now) }
{
    Ok(message.as_slice().to_vec(alloc)?)
}
