//! Which group of a reply is the next alias of a name, and its target (RFC 1034 3.6.2, RFC 6672 2.2).

ghost use Rattle.std.specs.Prelude.{◌≡◌, List, position};
ghost use Rattle.std.specs.Option.{is_some, option_map};
ghost use Rattle.dsec_alias.specs.Candidates.{only_target as only_target_of};
ghost use Rattle.dsec_alias.specs.Following.{is_alias as alias, next_alias as next_of};
ghost use Rattle.dsec_follow.specs.Replies.{asked_in, reply_view};
ghost use Rattle.dsec_nodes.specs.Judging.{Judged};
ghost use Rattle.dsec_name.specs.NameRefs.{name_view};
ghost use Rattle.dsec_spec.specs.Answering.{is_alias_above as alias_above, is_alias_at as alias_at, leads_on as on};
ghost use Rattle.dsec_spec.specs.Islands.{island};
ghost use Rattle.dsec_spec.specs.Names.{place};
ghost use Rattle.dsec_spec.specs.Records as records;

use crate::reply::Reply;
use dsec_anchors::island_owner;
use dsec_chain::{is_same, is_strictly_below};
use dsec_crypto::Verifier;
use dsec_found::is_above_island;
use dsec_group::Group;
use dsec_name::{Name, NameRef};
use dsec_number::Rtype;

/// The index of the next alias of a name: of the first group of the answer section that leads on from it.
pub(crate) fn next_alias<V: Verifier>(reply: &Reply<'_, V>, name: &Name) -> Option<usize>
    ensures { result ≡ next_of (reply_view reply.now) name.now }
{
    first_alias(reply, name)
}

/// The index of the first judged group that leads on from a name.
fn first_alias<V: Verifier>(reply: &Reply<'_, V>, name: &Name) -> Option<usize>
    ensures { result ≡ position (λ (j : Judged). alias (reply_view reply.now) name.now j.group) reply.now.answers.now }
{
    let top = island_owner(reply.anchors, name, reply.rtype);
    reply
        .answers
        .iter()
        .position(|one| is_alias(reply, name, top, one.group()))
}

/// Whether a group leads on from a name whose island is known, to a target.
fn is_alias<V: Verifier>(
    reply: &Reply<'_, V>,
    name: &Name,
    top: Option<&Name>,
    group: &Group,
) -> bool
    ensures { option_map (λ owner. place owner.now) top.entry ≡ island reply.now.anchors.now (place name.now) reply.now.rtype → result ≡ alias (reply_view reply.now) name.now group.now }
{
    leads_on(reply, name, top, group) && only_target(group).is_some()
}

/// The target of a group's one record; none where it has more (RFC 1035 3.3.1, RFC 6672 2.1).
pub(crate) fn only_target(group: &Group) -> Option<NameRef<'_>>
    ensures { option_map name_view result ≡ only_target_of group.now.records }
{
    match group.rr_set() {
        [only] => {
            let (target, _) = NameRef::from_prefix(only.rdata().octets().as_slice())?;
            Some(target)
        }
        _ => None,
    }
}

/// Whether a group leads on from a name whose island is known: one record of the class, an alias at the name or above it.
fn leads_on<V: Verifier>(
    reply: &Reply<'_, V>,
    name: &Name,
    top: Option<&Name>,
    group: &Group,
) -> bool
    ensures { (anchors : List records.Record) → option_map (λ owner. place owner.now) top.entry ≡ island anchors (place name.now) reply.now.rtype
        → result ≡ on anchors (asked_in reply.now name.now) group.now }
{
    group.class() == reply.class
        && group.rr_set().len() == 1
        && (is_alias_at(reply, name, group) || is_alias_above(reply, name, top, group))
}

/// Whether a group is a CNAME at the name, and CNAME isn't asked for.
fn is_alias_at<V: Verifier>(reply: &Reply<'_, V>, name: &Name, group: &Group) -> bool
    ensures { result ≡ alias_at (asked_in reply.now name.now) group.now }
{
    group.rtype() == Rtype::CNAME && reply.rtype != Rtype::CNAME && is_same(group.owner(), name)
}

/// Whether a group is a DNAME strictly above the name, and not strictly above its island.
fn is_alias_above<V: Verifier>(
    reply: &Reply<'_, V>,
    name: &Name,
    top: Option<&Name>,
    group: &Group,
) -> bool
    ensures { (anchors : List records.Record) → option_map (λ owner. place owner.now) top.entry ≡ island anchors (place name.now) reply.now.rtype
        → result ≡ alias_above anchors (asked_in reply.now name.now) group.now }
{
    group.rtype() == Rtype::DNAME
        && is_strictly_below(name, group.owner())
        && !is_above_island(top, group.owner())
}
