//! The zone of an island of security, by its key set and its anchors (RFC 4033 2, RFC 4035 5).

ghost use Rattle.std.specs.Prelude.{◌≡◌, ◌<◌, ◌∷◌, [], IfOk, length, min};
ghost use Rattle.dsec_spec.specs.Groups.{set_in};
ghost use Rattle.dsec_spec.specs.Lasting.{least_ttl, ttl_for_sig as ttl_of};
ghost use Rattle.dsec_spec.specs.Names.{place};
ghost use Rattle.dsec_spec.specs.Numbers.{DNSKEY, RRSIG};
ghost use Rattle.dsec_spec.specs.Records as records;
ghost use Rattle.dsec_link.specs.Links.{kind_view};
ghost use Rattle.dsec_nodes.specs.Admission.{Admitted};
ghost use Rattle.dsec_nodes.specs.Held.{SetAt};
ghost use Rattle.dsec_nodes.specs.Walk.{anchor_kind as kind_by, anchored};
ghost use Rattle.dsec_nodes.specs.World.{on_circle};
ghost use Rattle.dsec_node.specs.Good.{IsGoodByAnchorAt, IsPair};
ghost use Rattle.dsec_node.specs.KeyTags.{AreTags};
ghost use Rattle.dsec_node.specs.Views.{bounds_view, world_of};

use crate::bounds::Bounds;
use crate::copies::{copy_of, record_copy};
use crate::keys::Keys;
use crate::links::{key_set_link, one_link, signed_for};
use crate::node::Node;
use crate::standing::Standing;
use dsec_crypto::Verifier;
use dsec_group::Group;
use dsec_link::LinkKind;
use dsec_name::NoMemory;
use dsec_number::Rtype;
use dsec_wire::Record;
use std::alloc::Global;

/// The node of an island: by the signature at one index of its key set, whose keys have these tags, of the key that the record at another
/// says, which the anchor admits, one of the anchors.
pub fn anchor_node<V: Verifier>(
    alloc: Global,
    bounds: &Bounds,
    now: u64,
    anchors: &[Record],
    group: &Group,
    tags: Vec<u16>,
    anchor: &Record,
    key: usize,
    signature: usize,
) -> Result<Node<V>, NoMemory>
    requires tags { AreTags tags.items (set_in group.now).datas }
    requires key { key < length group.now.records }
    requires signature { signature < length group.now.signatures }
    requires at { SetAt (place group.now.owner) DNSKEY group.now }
    requires good { IsGoodByAnchorAt (world_of V.accepts anchors.now (bounds_view bounds.now) now) group.now anchor.now key signature }
    ensures { IfOk result (λ n. (p : records.Record × Admitted records.Record) → IsPair group.now anchor.now key signature p
        → n ≡ anchored (world_of V.accepts anchors.now (bounds_view bounds.now) now) (place group.now.owner) group.now p) }
{
    let sig = &group.sig_set()[signature];
    let kind = anchor_kind(anchor);
    let via = anchor.rdata().octets();
    let link = key_set_link(alloc, kind, group, sig, via, &group.rr_set()[key])?;
    let links = one_link(alloc, link)?;
    let keys = Keys::with_tags(alloc, group, tags)?;
    let anchor = record_copy(anchor)?;
    let name = copy_of(group.owner())?;
    let signer = copy_of(group.owner())?;
    let valid_for = valid_for(bounds, group, sig, now);
    Ok(Node::new(
        name,
        now,
        valid_for,
        Some(anchor),
        signer,
        links,
        Standing::Apex(keys),
        *bounds,
    ))
}

/// What the link of a key set is that an anchor admits.
fn anchor_kind(anchor: &Record) -> LinkKind
    ensures { kind_view result ≡ kind_by anchor.now }
{
    if anchor.rtype() == Rtype::DS {
        LinkKind::AnchorDs
    } else {
        LinkKind::AnchorKey
    }
}

/// For how long it is kept.
fn valid_for(bounds: &Bounds, group: &Group, sig: &Record, now: u64) -> u64
    requires { sig.now.rtype ≡ RRSIG }
    ensures { result ≡ min bounds.now.max_validity (min (least_ttl group.now.records) (ttl_of sig.now (on_circle now))) }
{
    bounds.max_validity.min(signed_for(group, sig, now))
}
