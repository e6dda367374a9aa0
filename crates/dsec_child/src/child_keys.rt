//! The zone at a name below a zone, by the DS set for it and the reply to the question for its DNSKEY set (RFC 4035 5.2).

ghost use Rattle.std.specs.Prelude.{◌≡◌, ◌≤◌, ◌+◌, [], List, ℕ, IfOk, Some, map, true};
ghost use Rattle.std.specs.Option.{option_map};
ghost use Rattle.dsec_spec.specs.Groups.{set_in};
ghost use Rattle.dsec_spec.specs.Numbers.{DNSKEY, DS};
ghost use Rattle.dsec_spec.specs.Records.{ds_octets, ds_of};
ghost use Rattle.dsec_wire.specs.DataViews.{ds_view};
ghost use Rattle.dsec_link.specs.Sets.{AreOf, octets_of};
ghost use Rattle.dsec_nodes.specs.Admission.{cause_among, ds_search, tried_by};
ghost use Rattle.dsec_nodes.specs.ByDs.{by_key_reply, by_tried, none_by, ways};
ghost use Rattle.dsec_nodes.specs.Causes.{BadSignatureForDnskey};
ghost use Rattle.dsec_nodes.specs.Held.{IsPending};
ghost use Rattle.dsec_nodes.specs.Nodes.{apex};
ghost use Rattle.dsec_nodes.specs.Replies.{read_reply as reply_of};
ghost use Rattle.dsec_nodes.specs.Signing.{is_set_at};
ghost use Rattle.dsec_node.specs.KeyTags.{AreTags};
ghost use Rattle.dsec_node.specs.Views.{bounds_of, world_of};
ghost use Rattle.dsec_child.specs.Admissions.{IsAdmission};
ghost use Rattle.dsec_child.specs.ChildKeys.{AreDs, HoldsByDs};

use crate::admit::{Admission, admitted_by_ds};
use crate::island::bogus;
use crate::reply::{Reply, read_reply, set_at};
use dsec_cause::Cause;
use dsec_crypto::Verifier;
use dsec_group::{Group, Memo, Steps};
use dsec_name::NoMemory;
use dsec_node::{Config, Node, Pending, apex_node, key_tags};
use dsec_number::{Rtype, Timestamp};
use dsec_wire::{Data, Ds};
use std::alloc::Global;
use std::sync::ledger::Ledger;

/// The node of a name below a zone, by the DS set for it that the zone has signed, and the octets of the reply to the question
/// for its DNSKEY set, if there are any: a zone where a DS record admits a key that has signed the set, and else bogus.
pub fn by_keys<V: Verifier, L: Ledger>(
    alloc: Global,
    config: &Config,
    now: u64,
    zone: &Node<V>,
    pending: &Pending,
    reply: Option<Vec<u8>>,
    memo: &mut impl Memo<V>,
    steps: &mut Steps<L>,
) -> Result<Node<V>, NoMemory>
    requires ready { (keys : List (List ℕ)) × (zone.now.standing ≡ apex keys) × IsPending (world_of V.accepts [] (bounds_of config.now) now) zone.now keys pending.now }
    requires made { zone.now.made ≤ now }
    requires counts { now ≤ zone.now.made + zone.now.valid_for }
    ensures node { IfOk result (λ n. n ≡ by_key_reply (world_of V.accepts [] (bounds_of config.now) now) zone.now pending.now (reply_of (option_map (λ octets. octets.items) reply))) }
    ensures bound { steps.new ≤ steps.old + (config.now.max_bad_signatures + 1) }
{
    let name = pending.name();
    match read_reply(alloc, reply)? {
        Reply::Sections(answers, _) => match set_at(answers.as_slice(), name, Rtype::DNSKEY) {
            Some(group) => {
                by_key_set::<V, L>(alloc, config, now, zone, pending, group, memo, steps)
            }
            None => bogus(alloc, config, now, name, Cause::NoDnskey),
        },
        Reply::Failed => bogus(alloc, config, now, name, Cause::RequestFailed),
        Reply::Unreadable => bogus(alloc, config, now, name, Cause::RequestUnreadable),
    }
}

/// The node, by the DNSKEY set at the name.
fn by_key_set<V: Verifier, L: Ledger>(
    alloc: Global,
    config: &Config,
    now: u64,
    zone: &Node<V>,
    pending: &Pending,
    group: &Group,
    memo: &mut impl Memo<V>,
    steps: &mut Steps<L>,
) -> Result<Node<V>, NoMemory>
    requires at { is_set_at pending.now.name DNSKEY group.now ≡ true }
    requires ready { (keys : List (List ℕ)) × (zone.now.standing ≡ apex keys) × IsPending (world_of V.accepts [] (bounds_of config.now) now) zone.now keys pending.now }
    requires made { zone.now.made ≤ now }
    requires counts { now ≤ zone.now.made + zone.now.valid_for }
    ensures node { IfOk result (λ n. n ≡ by_tried (world_of V.accepts [] (bounds_of config.now) now) zone.now pending.now group.now
        (tried_by (world_of V.accepts [] (bounds_of config.now) now) group.now (ds_search config.now.max_dnskeys_per_ds group.now)
        (ways (world_of V.accepts [] (bounds_of config.now) now) pending.now))) }
    ensures bound { steps.new ≤ steps.old + (config.now.max_bad_signatures + 1) }
{
    let tags = key_tags(alloc, group)?;
    match admitted::<V, L>(alloc, config, now, pending, group, &tags, memo, steps)? {
        Ok(it) => made(alloc, config, now, zone, pending, group, tags, it),
        Err(cause) => bogus(alloc, config, now, pending.name(), cause),
    }
}

/// Which of the DS data admits a key of the set that has signed it, at a moment in seconds since 1970. The set's keys have these
/// tags.
fn admitted<V: Verifier, L: Ledger>(
    alloc: Global,
    config: &Config,
    now: u64,
    pending: &Pending,
    group: &Group,
    tags: &[u16],
    memo: &mut impl Memo<V>,
    steps: &mut Steps<L>,
) -> Result<Result<Admission, Cause>, NoMemory>
    requires typed { group.now.rtype ≡ DNSKEY }
    requires tags { AreTags tags.now (set_in group.now).datas }
    requires of_ds { pending.now.link.records.rtype ≡ DS }
    ensures admitted { IfOk result (IsAdmission pending.now.link.records.datas group.now
        (none_by (world_of V.accepts [] (bounds_of config.now) now) pending.now (cause_among BadSignatureForDnskey group.now
        (ds_search config.now.max_dnskeys_per_ds group.now) (ways (world_of V.accepts [] (bounds_of config.now) now) pending.now)))
        (tried_by (world_of V.accepts [] (bounds_of config.now) now) group.now (ds_search config.now.max_dnskeys_per_ds group.now)
        (ways (world_of V.accepts [] (bounds_of config.now) now) pending.now))) }
    ensures bound { steps.new ≤ steps.old + (config.now.max_bad_signatures + 1) }
{
    let all = read_all(alloc, pending.link().records().datas())?;
    let t = Timestamp::from_seconds(now);
    admitted_by_ds::<V, L>(alloc, &all, group, tags, config, t, memo, steps)
}

/// What DS data say, in order.
fn read_all<'a>(alloc: Global, datas: &'a [Data]) -> Result<Vec<Ds<'a>>, NoMemory>
    requires { AreOf DS datas.now }
    ensures { IfOk result (λ all. AreDs (octets_of datas.now) (map ds_view all.items)) }
{
    let mut all = Vec::with_capacity(alloc, datas.len())?;
    for one in datas {
        all.extend_from_slice(&[read_one(one)])?;
    }
    Ok(all)
}

/// What the data of a DS record say.
fn read_one(one: &Data) -> Ds<'_>
    requires { one.now.rtype ≡ DS }
    ensures says { Some (ds_view result) ≡ ds_of one.now.octets }
    ensures again { ds_octets (ds_view result) ≡ one.now.octets }
{
    match (one.ds(), one.octets().as_slice()) {
        (Some(ds), [high, low, ..]) => {
            // the tag is the first two octets, so that no other data say the same
            prove!(ds.key_tag == u16::from_be_bytes([*high, *low]));
            ds
        }
        _ => unreachable!(),
    }
}

/// The zone, by the admission of its key set, whose keys have these tags.
fn made<V: Verifier>(
    alloc: Global,
    config: &Config,
    now: u64,
    zone: &Node<V>,
    pending: &Pending,
    group: &Group,
    tags: Vec<u16>,
    it: Admission,
) -> Result<Node<V>, NoMemory>
    requires tags { AreTags tags.items (set_in group.now).datas }
    requires at { is_set_at pending.now.name DNSKEY group.now ≡ true }
    requires ready { (keys : List (List ℕ)) × (zone.now.standing ≡ apex keys) × IsPending (world_of V.accepts [] (bounds_of config.now) now) zone.now keys pending.now }
    requires made { zone.now.made ≤ now }
    requires counts { now ≤ zone.now.made + zone.now.valid_for }
    requires admitted { HoldsByDs (world_of V.accepts [] (bounds_of config.now) now) pending.now group.now it }
    ensures { IfOk result (λ n. n ≡ by_tried (world_of V.accepts [] (bounds_of config.now) now) zone.now pending.now group.now
        (tried_by (world_of V.accepts [] (bounds_of config.now) now) group.now (ds_search config.now.max_dnskeys_per_ds group.now)
        (ways (world_of V.accepts [] (bounds_of config.now) now) pending.now))) }
{
    let bounds = config.bounds();
    let via = pending.link().records().datas()[it.via].octets();
    apex_node(
        alloc,
        &bounds,
        now,
        zone,
        pending,
        group,
        tags,
        via,
        it.key,
        it.signature,
    )
}
