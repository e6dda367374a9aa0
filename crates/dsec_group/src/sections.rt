//! The sections of a message, each record put into its group as it is read (RFC 1035 4.1, RFC 2181 5).

ghost use Rattle.std.specs.Prelude.{ℕ};
ghost use Rattle.dsec_spec.specs.Messages.{record_at as record_of};
ghost use Rattle.dsec_spec.specs.Reading.{Reads, many_of};
ghost use Rattle.dsec_wire.specs.Errors.{wants_memory};
ghost use Rattle.dsec_group.specs.Places.{SeededGroups};
ghost use Rattle.dsec_group.specs.Reading.{GroupsRead, groups_and_place, section_in_groups};

use crate::seed::Seed;
use crate::set::GroupSet;
use dsec_message::Message;
use dsec_wire::{MessageError, Questions, record_at};
use std::alloc::Global;

/// The questions of a message, and the groups of its answer and authority sections.
#[derive(Drop)]
pub struct GroupedSections {
    /// The questions.
    pub question: Questions,
    /// The groups of the answer section.
    pub answer: GroupSet,
    /// The groups of the authority section.
    pub authority: GroupSet,
}

/// The questions of a message and the groups of its answer and authority sections, hashed by the message's own seed, and the place after them.
pub fn read_groups(
    alloc: Global,
    message: &Message,
) -> Result<(GroupedSections, usize), MessageError>
    ensures { Reads {Y = GroupsRead} wants_memory (λ read. (read.0, read.1)) result (groups_and_place message.now) }
{
    let seed = Seed::of_message(message);
    let header = message.header();
    let octets = message.as_slice();
    let (question, at) = message.question_and_place(alloc)?;
    let (answer, at) = groups_at(alloc, seed, header.ancount(), octets, at)?;
    let (authority, at) = groups_at(alloc, seed, header.nscount(), octets, at)?;
    Ok((
        GroupedSections {
            question,
            answer,
            authority,
        },
        at,
    ))
}

/// The groups of so many records from a place on, and the place after them.
fn groups_at(
    alloc: Global,
    seed: Seed,
    count: u16,
    message: &[u8],
    start: usize,
) -> Result<(GroupSet, usize), MessageError>
    ensures { Reads {Y = SeededGroups × ℕ} wants_memory (λ read. (read.0, read.1)) result (section_in_groups seed (many_of (record_of message.now) count start)) }
{
    let mut groups = GroupSet::with_seed(alloc, seed);
    let mut at = start;
    for _ in 0..count {
        let (record, after) = record_at(alloc, message, at)?;
        groups.add(record)?;
        at = after;
    }
    groups.settle();
    Ok((groups, at))
}
