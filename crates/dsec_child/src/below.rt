//! What the reply to the question for a name's DS set comes to (RFC 4035 5.2).

ghost use Rattle.std.specs.Prelude.{◌≡◌, ◌≤◌, ◌+◌, ◌*◌, [], List, ℕ, IfOk, find, length, map};
ghost use Rattle.std.specs.Option.{option_map};
ghost use Rattle.dsec_spec.specs.Names.{IsStrictlyBelow, place};
ghost use Rattle.dsec_spec.specs.Numbers.{DS};
ghost use Rattle.dsec_nodes.specs.ByDs as nodes;
ghost use Rattle.dsec_nodes.specs.ByDs.{by_ds_reply as ds_reply_below, by_ds_set as ds_below, without_ds as no_ds_below};
ghost use Rattle.dsec_nodes.specs.Held.{IsPending};
ghost use Rattle.dsec_nodes.specs.Nodes.{apex};
ghost use Rattle.dsec_nodes.specs.Replies.{read_reply as reply_of};
ghost use Rattle.dsec_nodes.specs.Signing.{is_set_at};
ghost use Rattle.dsec_node.specs.Views.{bounds_of, world_of};
ghost use Rattle.dsec_child.specs.Belows.{IsZoneAbove, below_view, most_checked};

use crate::alias::by_alias;
use crate::ds_set::{Below, by_ds_set};
use crate::island::bogus;
use crate::missing::missing;
use crate::reply::{Reply, read_reply, set_at};
use dsec_cause::Cause;
use dsec_crypto::Verifier;
use dsec_group::{Group, Memo, Steps};
use dsec_name::{Name, NoMemory};
use dsec_node::{Config, Keys, Node, Standing};
use dsec_number::Rtype;
use std::alloc::Global;
use std::sync::ledger::Ledger;

/// What the octets of the reply to the question for a name's DS set, if there are any, come to below a zone, at a moment in
/// seconds since 1970. For a DS set, a CNAME set and each group of the authority section at most
/// `max_bad_signatures + 1` signatures are checked.
pub fn by_ds_reply<V: Verifier, L: Ledger>(
    alloc: Global,
    config: &Config,
    now: u64,
    zone: &Node<V>,
    name: &Name,
    reply: Option<Vec<u8>>,
    memo: &mut impl Memo<V>,
    steps: &mut Steps<L>,
) -> Result<Below<V>, NoMemory>
    requires begins { (keys : List (List ℕ)) × (zone.now.standing ≡ apex keys) }
    requires made { zone.now.made ≤ now }
    requires counts { now ≤ zone.now.made + zone.now.valid_for }
    requires under { IsStrictlyBelow (place name.now) zone.now.signer }
    ensures below { IfOk result (λ it. (keys : List (List ℕ)) → zone.now.standing ≡ apex keys
        → below_view it ≡ ds_reply_below (world_of V.accepts [] (bounds_of config.now) now) zone.now keys (place name.now) (reply_of (option_map (λ octets. octets.items) reply))) }
    ensures pending { IfOk result (λ it. (keys : List (List ℕ)) (pending : nodes.Pending) → zone.now.standing ≡ apex keys → below_view it ≡ nodes.asks pending
        → IsPending (world_of V.accepts [] (bounds_of config.now) now) zone.now keys pending) }
    ensures later { steps.old ≤ steps.new }
    ensures bound { steps.new ≤ steps.old + most_checked (reply_of (option_map (λ octets. octets.items) reply)) * (config.now.max_bad_signatures + 1) }
{
    let Standing::Apex(keys) = zone.standing() else {
        unreachable!();
    };
    match read_reply(alloc, reply)? {
        Reply::Sections(answers, authorities) => by_sections::<V, L>(
            alloc,
            config,
            now,
            zone,
            keys,
            name,
            answers.as_slice(),
            authorities.as_slice(),
            memo,
            steps,
        ),
        Reply::Failed => Ok(Below::Made(bogus(alloc, config, now, name, Cause::RequestFailed)?)),
        Reply::Unreadable => {
            Ok(Below::Made(bogus(alloc, config, now, name, Cause::RequestUnreadable)?))
        }
    }
}

/// The same by the groups of the reply's answer and authority sections.
fn by_sections<V: Verifier, L: Ledger>(
    alloc: Global,
    config: &Config,
    now: u64,
    zone: &Node<V>,
    keys: &Keys,
    name: &Name,
    answers: &[Group],
    authorities: &[Group],
    memo: &mut impl Memo<V>,
    steps: &mut Steps<L>,
) -> Result<Below<V>, NoMemory>
    requires { IsZoneAbove (world_of V.accepts [] (bounds_of config.now) now) zone.now keys.now (place name.now) }
    ensures below { IfOk result (λ it. below_view it ≡ ds_below (world_of V.accepts [] (bounds_of config.now) now) zone.now keys.now (place name.now) answers.now authorities.now
        (find (is_set_at (place name.now) DS) answers.now)) }
    ensures later { steps.old ≤ steps.new }
    ensures bound { steps.new ≤ steps.old + (2 + length authorities.now) * (config.now.max_bad_signatures + 1) }
{
    if let Some(group) = set_at(answers, name, Rtype::DS) {
        let found = by_ds_set::<V, L>(alloc, config, now, zone, keys, name, group, memo, steps)?;
        if let Some(it) = found {
            return Ok(it);
        }
    }
    let node = without_ds::<V, L>(
        alloc,
        config,
        now,
        zone,
        keys,
        name,
        answers,
        authorities,
        memo,
        steps,
    )?;
    Ok(Below::Made(node))
}

/// The same where the answer section has no DS set that counts.
fn without_ds<V: Verifier, L: Ledger>(
    alloc: Global,
    config: &Config,
    now: u64,
    zone: &Node<V>,
    keys: &Keys,
    name: &Name,
    answers: &[Group],
    authorities: &[Group],
    memo: &mut impl Memo<V>,
    steps: &mut Steps<L>,
) -> Result<Node<V>, NoMemory>
    requires { IsZoneAbove (world_of V.accepts [] (bounds_of config.now) now) zone.now keys.now (place name.now) }
    ensures node { IfOk result (λ n. nodes.made n ≡ no_ds_below (world_of V.accepts [] (bounds_of config.now) now) zone.now keys.now (place name.now) answers.now authorities.now) }
    ensures later { steps.old ≤ steps.new }
    ensures bound { steps.new ≤ steps.old + (1 + length authorities.now) * (config.now.max_bad_signatures + 1) }
{
    if let Some(group) = set_at(answers, name, Rtype::CNAME) {
        let found = by_alias::<V, L>(alloc, config, now, zone, keys, name, group, memo, steps)?;
        if let Some(node) = found {
            return Ok(node);
        }
    }
    missing::<V, L>(
        alloc,
        config,
        now,
        zone,
        keys,
        name,
        authorities,
        memo,
        steps,
    )
}
