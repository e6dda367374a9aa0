//! What is told of a judged group, with what it rests on (RFC 4033 2, RFC 4035 5.3).

ghost use Rattle.std.specs.Prelude.{◌≡◌, ◌++◌, ◌∷◌, [], IfOk, IfSome, IsSome, Some, min, if◌then◌else◌};
ghost use Rattle.dsec_spec.specs.Lasting.{adjusted_ttl, least_ttl, ttl_for_sig as ttl_of};
ghost use Rattle.dsec_spec.specs.Numbers.{RRSIG};
ghost use Rattle.dsec_spec.specs.Records.{rrsig_of};
ghost use Rattle.dsec_nodes.specs.Judging.{by_node};
ghost use Rattle.dsec_nodes.specs.World.{on_circle};
ghost use Rattle.dsec_node.specs.Counting.{seconds_kept};
ghost use Rattle.dsec_node.specs.Views.{bounds_of, world_of};
ghost use Rattle.dsec_found.specs.Told.{own_link, signature_of};
ghost use Rattle.dsec_by_node.specs.Answers.{CanBeTold, answer_by, encloser_by};
ghost use Rattle.dsec_by_node.specs.Grounds.{RestsOn};
ghost use Rattle.dsec_by_node.specs.WithNode.{is_secure as secure, seconds_by, ShownAs};

use crate::answer::WithNode;
use crate::by_node::is_secure;
use crate::told::Told;
use dsec_crypto::Verifier;
use dsec_found::JudgedGroup;
use dsec_group::{Group, ttl_for_sig};
use dsec_link::{Link, Links, Shown};
use dsec_name::{Name, NoMemory};
use dsec_node::{Config, Node};
use dsec_number::{Timestamp, Ttl};
use dsec_wire::Record;
use std::alloc::Global;

/// What is told of a group that was judged by a node.
pub(crate) fn by_judged<V: Verifier>(
    alloc: Global,
    config: &Config,
    now: u64,
    node: &Node<V>,
    judged: &JudgedGroup<V>,
) -> Result<WithNode<V>, NoMemory>
    requires found { judged.now ≡ by_node (world_of V.accepts [] (bounds_of config.now) now) judged.now.group node.now }
    requires rests { RestsOn V.accepts judged.now.group node.now (on_circle now) judged.now.finding }
    ensures answer { IfOk result (λ it. it.told.answer ≡ answer_by judged.now.group (on_circle now) judged.now.finding) }
    ensures seconds { IfOk result (λ it. it.seconds ≡ (if secure node.now.standing
        then seconds_by (world_of V.accepts [] (bounds_of config.now) now) judged.now.group node.now judged.now.finding else seconds_kept node.now now)) }
    ensures sound { IfOk result (λ it. CanBeTold V.accepts judged.now.group node.now.signer it.told) }
    ensures shown { IfOk result (λ it. ShownAs node.now (on_circle now) judged.now.finding it.told.shown it.told.answer.state) }
{
    match judged.signature() {
        Some(signature) => by_signature(alloc, now, node, judged, signature),
        None => Ok(WithNode {
            told: Told::unsecured(judged.state(), judged.cause()),
            seconds: seconds_unsigned(config, now, node),
        }),
    }
}

/// For how many seconds what is told of a group may be kept that no signature shows.
fn seconds_unsigned<V: Verifier>(config: &Config, now: u64, node: &Node<V>) -> u64
    ensures { result ≡ (if secure node.now.standing then config.now.max_bogus_validity else seconds_kept node.now now) }
{
    if is_secure(node) {
        config.max_bogus_validity()
    } else {
        node.ttl(now)
    }
}

/// What is told of a group that a signature shows.
fn by_signature<V: Verifier>(
    alloc: Global,
    now: u64,
    node: &Node<V>,
    judged: &JudgedGroup<V>,
    signature: &Record,
) -> Result<WithNode<V>, NoMemory>
    requires its { signature_of judged.now.finding ≡ Some signature.now }
    requires typed { signature.now.rtype ≡ RRSIG }
    requires rests { RestsOn V.accepts judged.now.group node.now (on_circle now) judged.now.finding }
    ensures answer { IfOk result (λ it. it.told.answer ≡ answer_by judged.now.group (on_circle now) judged.now.finding) }
    ensures seconds { IfOk result (λ it. it.seconds ≡ min (seconds_kept node.now now) (min (least_ttl judged.now.group.records) (ttl_of signature.now (on_circle now)))) }
    ensures sound { IfOk result (λ it. CanBeTold V.accepts judged.now.group node.now.signer it.told) }
    ensures shown { IfOk result (λ it. ShownAs node.now (on_circle now) judged.now.finding it.told.shown it.told.answer.state) }
{
    let closest_encloser = closest_encloser(alloc, judged, signature)?;
    let shown = shown_by(alloc, now, node, judged)?;
    let left = ttl_for_sig(signature, Timestamp::from_seconds(now));
    let adjusted = adjusted(judged.group(), left);
    let least = judged.group().min_ttl().as_secs().min(left.as_secs());
    Ok(WithNode {
        told: Told::secure(closest_encloser, adjusted, shown),
        seconds: node.ttl(now).min(u64::from(least)),
    })
}

/// The closest encloser of a group that is an expansion of a wildcard, by the labels that its signature counts.
fn closest_encloser<V: Verifier>(
    alloc: Global,
    judged: &JudgedGroup<V>,
    signature: &Record,
) -> Result<Option<Name>, NoMemory>
    requires its { signature_of judged.now.finding ≡ Some signature.now }
    requires typed { signature.now.rtype ≡ RRSIG }
    ensures { IfOk result (λ name. name ≡ encloser_by judged.now.group (rrsig_of signature.now.rdata)) }
{
    if !judged.is_expanded() {
        return Ok(None);
    }
    match signature.rdata().rrsig() {
        Some(rrsig) => {
            let labels = usize::from(rrsig.labels);
            Ok(Some(judged.group().owner().ancestor(alloc, labels)?))
        }
        None => Ok(None),
    }
}

/// The TTL that a group's are cut to, where its signature may be kept for less than one of them says.
fn adjusted(group: &Group, left: Ttl) -> Option<Ttl>
    ensures { result ≡ adjusted_ttl group.now left }
{
    if left.as_secs() < group.max_ttl().as_secs() {
        Some(left)
    } else {
        None
    }
}

/// What shows a group that was judged by a node: the node's links, and the group's own, from the node's anchor.
fn shown_by<V: Verifier>(
    alloc: Global,
    now: u64,
    node: &Node<V>,
    judged: &JudgedGroup<V>,
) -> Result<Shown<V>, NoMemory>
    requires shown { IsSome (own_link judged.now.finding) }
    requires rests { RestsOn V.accepts judged.now.group node.now (on_circle now) judged.now.finding }
    ensures anchor { IfOk result (λ shown. node.now.anchor ≡ Some shown.anchor) }
    ensures moment { IfOk result (λ shown. shown.moment ≡ on_circle now) }
    ensures links { IfOk result (λ shown. IfSome (own_link judged.now.finding) (λ last. shown.links ≡ node.now.links ++ last ∷ [])) }
{
    let anchor = anchor_of(node)?;
    let links = links_to(alloc, node, judged)?;
    Ok(Shown::new(anchor, links, Timestamp::from_seconds(now)))
}

/// A copy of a node's anchor, where it has one.
fn anchor_of<V: Verifier>(node: &Node<V>) -> Result<Record, NoMemory>
    requires { IsSome node.now.anchor }
    ensures { IfOk result (λ anchor. node.now.anchor ≡ Some anchor) }
{
    match node.copied_anchor()? {
        Some(anchor) => Ok(anchor),
        None => unreachable!(),
    }
}

/// The node's links, and the group's own at their end, where it has one.
fn links_to<V: Verifier>(
    alloc: Global,
    node: &Node<V>,
    judged: &JudgedGroup<V>,
) -> Result<Links, NoMemory>
    requires { IsSome (own_link judged.now.finding) }
    ensures { IfOk result (λ links. IfSome (own_link judged.now.finding) (λ last. links ≡ node.now.links ++ last ∷ [])) }
{
    match judged.last_link(alloc)? {
        Some(last) => followed_by(node.chain(), last),
        None => unreachable!(),
    }
}

/// A copy of links, with another at its end.
fn followed_by(links: &Links, last: Link) -> Result<Links, NoMemory>
    ensures { IfOk result (λ all. all ≡ links.now ++ last ∷ []) }
{
    let mut all = links.clone()?.into_vec();
    all.push(last)?;
    Ok(Links::new(all))
}
