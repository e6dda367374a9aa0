//! The replies to a validator's own questions, and the sets in them (RFC 1035 4.1, RFC 2181 5).

ghost use Rattle.std.specs.Prelude.{◌≡◌, IfOk, IfSome, find, true};
ghost use Rattle.std.specs.Option.{option_map};
ghost use Rattle.dsec_spec.specs.Names.{place};
ghost use Rattle.dsec_nodes.specs.Replies.{read_reply as reply_of};
ghost use Rattle.dsec_nodes.specs.Signing.{is_set_at as set_is_at};
ghost use Rattle.dsec_child.specs.Replied.{reply_view};

use crate::way::is_same;
use dsec_group::{Group, GroupSet, read_groups};
use dsec_message::Message;
use dsec_name::{Name, NoMemory};
use dsec_number::{Class, Rtype};
use dsec_wire::MessageError;
use std::alloc::Global;

/// What a question brought.
#[derive(Drop)]
pub(crate) enum Reply {
    /// No octets.
    Failed,
    /// Octets that can't be read.
    Unreadable,
    /// The groups of the answer and of the authority section.
    Sections(GroupSet, GroupSet),
}

/// What a question brought, by the octets of its reply, if there are any.
pub(crate) fn read_reply(alloc: Global, reply: Option<Vec<u8>>) -> Result<Reply, NoMemory>
    ensures { IfOk result (λ it. reply_view it ≡ reply_of (option_map (λ octets. octets.items) reply)) }
{
    let Some(octets) = reply else {
        return Ok(Reply::Failed);
    };
    let Ok(message) = Message::from_octets(octets) else {
        return Ok(Reply::Unreadable);
    };
    match read_groups(alloc, &message) {
        Ok((sections, _)) => Ok(Reply::Sections(sections.answer, sections.authority)),
        Err(MessageError::ParseError) => Ok(Reply::Unreadable),
        Err(MessageError::NoMemory) => Err(NoMemory),
    }
}

/// The first of these groups that is the set of class IN of a type at a name.
pub(crate) fn set_at<'a>(groups: &'a [Group], name: &Name, rtype: Rtype) -> Option<&'a Group>
    ensures first { option_map (λ group. group.now) result ≡ find (set_is_at (place name.now) rtype) groups.now }
    ensures its { IfSome result (λ group. set_is_at (place name.now) rtype group.now ≡ true) }
    ensures typed { IfSome result (λ group. group.now.rtype ≡ rtype) }
{
    groups.iter().find(|group| is_set_at(group, name, rtype))
}

/// Whether a group is the set of class IN of a type at a name.
fn is_set_at(group: &Group, name: &Name, rtype: Rtype) -> bool
    ensures { result ≡ set_is_at (place name.now) rtype group.now }
{
    is_same(group.owner(), name) && group.class() == Class::IN && group.rtype() == rtype
}
