//! The zone of an island of security, by the reply to the question for its DNSKEY set (RFC 4033 2, RFC 4035 5).

ghost use Rattle.std.specs.Prelude.{◌≡◌, ◌≤◌, ◌+◌, List, IfOk, true};
ghost use Rattle.std.specs.Option.{option_map};
ghost use Rattle.dsec_spec.specs.Groups.{set_in};
ghost use Rattle.dsec_spec.specs.Names.{place};
ghost use Rattle.dsec_spec.specs.Numbers.{DNSKEY};
ghost use Rattle.dsec_spec.specs.Records as records;
ghost use Rattle.dsec_nodes.specs.Admission.{anchor_search, cause_among, tried_by};
ghost use Rattle.dsec_nodes.specs.Causes.{BadSignature};
ghost use Rattle.dsec_nodes.specs.Held.{SetAt};
ghost use Rattle.dsec_nodes.specs.MissingDs.{bogus_at};
ghost use Rattle.dsec_nodes.specs.Replies.{read_reply as reply_of};
ghost use Rattle.dsec_nodes.specs.Signing.{is_set_at};
ghost use Rattle.dsec_nodes.specs.Walk.{anchored_by, by_anchor_reply};
ghost use Rattle.dsec_node.specs.KeyTags.{AreTags};
ghost use Rattle.dsec_node.specs.Views.{bounds_of, world_of};
ghost use Rattle.dsec_child.specs.Admissions.{IsAdmission};
ghost use Rattle.dsec_child.specs.Anchored.{HoldsBy};

use crate::admit::{Admission, admitted_by_anchor};
use crate::reply::{Reply, read_reply, set_at};
use dsec_cause::Cause;
use dsec_crypto::Verifier;
use dsec_group::{Group, Memo, Steps};
use dsec_name::{Name, NoMemory};
use dsec_node::{Config, Node, anchor_node, bogus_node, key_tags};
use dsec_number::{Rtype, Timestamp};
use dsec_wire::Record;
use std::alloc::Global;
use std::sync::ledger::Ledger;

/// The node of an island, by the octets of the reply to the question for its DNSKEY set, if there are any: a zone where one of
/// the anchors admits a key that has signed the set, and else bogus.
pub fn anchored<V: Verifier, L: Ledger>(
    alloc: Global,
    anchors: &[Record],
    config: &Config,
    now: u64,
    top: &Name,
    reply: Option<Vec<u8>>,
    memo: &mut impl Memo<V>,
    steps: &mut Steps<L>,
) -> Result<Node<V>, NoMemory>
    ensures node { IfOk result (λ n. n ≡ by_anchor_reply (world_of V.accepts anchors.now (bounds_of config.now) now) (place top.now) (reply_of (option_map (λ octets. octets.items) reply))) }
    ensures bound { steps.new ≤ steps.old + (config.now.max_bad_signatures + 1) }
{
    match read_reply(alloc, reply)? {
        Reply::Sections(answers, _) => match set_at(answers.as_slice(), top, Rtype::DNSKEY) {
            Some(group) => {
                by_key_set::<V, L>(alloc, anchors, config, now, top, group, memo, steps)
            }
            None => bogus(alloc, config, now, top, Cause::NoDnskeyForAnchor),
        },
        Reply::Failed => bogus(alloc, config, now, top, Cause::NoDnskeyForAnchor),
        Reply::Unreadable => bogus(alloc, config, now, top, Cause::NoDnskeyForAnchor),
    }
}

/// The node, by the DNSKEY set at the island.
fn by_key_set<V: Verifier, L: Ledger>(
    alloc: Global,
    anchors: &[Record],
    config: &Config,
    now: u64,
    top: &Name,
    group: &Group,
    memo: &mut impl Memo<V>,
    steps: &mut Steps<L>,
) -> Result<Node<V>, NoMemory>
    requires { is_set_at (place top.now) DNSKEY group.now ≡ true }
    ensures node { IfOk result (λ n. n ≡ anchored_by (world_of V.accepts anchors.now (bounds_of config.now) now) (place top.now) group.now
        (tried_by (world_of V.accepts anchors.now (bounds_of config.now) now) group.now (anchor_search config.now.max_dnskeys_per_ds group.now) anchors.now)) }
    ensures bound { steps.new ≤ steps.old + (config.now.max_bad_signatures + 1) }
{
    let tags = key_tags(alloc, group)?;
    match admitted::<V, L>(alloc, anchors, config, now, group, &tags, memo, steps)? {
        Ok(it) => made(alloc, anchors, config, now, group, tags, it),
        Err(cause) => bogus(alloc, config, now, top, cause),
    }
}

/// Which anchor admits a key of the set that has signed it, at a moment in seconds since 1970. The set's keys have these tags.
fn admitted<V: Verifier, L: Ledger>(
    alloc: Global,
    anchors: &[Record],
    config: &Config,
    now: u64,
    group: &Group,
    tags: &[u16],
    memo: &mut impl Memo<V>,
    steps: &mut Steps<L>,
) -> Result<Result<Admission, Cause>, NoMemory>
    requires typed { group.now.rtype ≡ DNSKEY }
    requires tags { AreTags tags.now (set_in group.now).datas }
    ensures admitted { IfOk result (IsAdmission anchors.now group.now
        (cause_among BadSignature group.now (anchor_search config.now.max_dnskeys_per_ds group.now) anchors.now)
        (tried_by (world_of V.accepts anchors.now (bounds_of config.now) now) group.now (anchor_search config.now.max_dnskeys_per_ds group.now) anchors.now)) }
    ensures bound { steps.new ≤ steps.old + (config.now.max_bad_signatures + 1) }
{
    let t = Timestamp::from_seconds(now);
    admitted_by_anchor::<V, L>(alloc, anchors, group, tags, config, t, memo, steps)
}

/// The zone, by the admission of its key set, whose keys have these tags.
fn made<V: Verifier>(
    alloc: Global,
    anchors: &[Record],
    config: &Config,
    now: u64,
    group: &Group,
    tags: Vec<u16>,
    it: Admission,
) -> Result<Node<V>, NoMemory>
    requires tags { AreTags tags.items (set_in group.now).datas }
    requires at { SetAt (place group.now.owner) DNSKEY group.now }
    requires admitted { HoldsBy (world_of V.accepts anchors.now (bounds_of config.now) now) group.now it }
    ensures { IfOk result (λ n. n ≡ anchored_by (world_of V.accepts anchors.now (bounds_of config.now) now) (place group.now.owner) group.now
        (tried_by (world_of V.accepts anchors.now (bounds_of config.now) now) group.now (anchor_search config.now.max_dnskeys_per_ds group.now) anchors.now)) }
{
    let bounds = config.bounds();
    let anchor = &anchors[it.via];
    anchor_node(
        alloc,
        &bounds,
        now,
        anchors,
        group,
        tags,
        anchor,
        it.key,
        it.signature,
    )
}

/// A bogus node.
pub(crate) fn bogus<V: Verifier>(
    alloc: Global,
    config: &Config,
    now: u64,
    name: &Name,
    cause: Cause,
) -> Result<Node<V>, NoMemory>
    ensures { IfOk result (λ n. (anchors : List records.Record) → n ≡ bogus_at (world_of V.accepts anchors (bounds_of config.now) now) (place name.now) cause) }
{
    bogus_node(alloc, &config.bounds(), now, name, cause)
}
