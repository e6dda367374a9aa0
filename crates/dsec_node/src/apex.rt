//! A zone below a zone, by its DS set and its key set (RFC 4035 5.2).

ghost use Rattle.std.specs.Prelude.{◌≡◌, ◌<◌, ◌≤◌, ◌+◌, ◌++◌, [], ◌∷◌, List, ℕ, IfOk, length, min};
ghost use Rattle.dsec_spec.specs.Groups.{set_in};
ghost use Rattle.dsec_spec.specs.Lasting.{least_ttl, ttl_for_sig as ttl_of};
ghost use Rattle.dsec_spec.specs.Numbers.{DNSKEY, RRSIG};
ghost use Rattle.dsec_spec.specs.Records as records;
ghost use Rattle.dsec_nodes.specs.Admission.{Admitted};
ghost use Rattle.dsec_nodes.specs.ByDs.{apex_by};
ghost use Rattle.dsec_nodes.specs.Held.{IsPending, SetAt};
ghost use Rattle.dsec_nodes.specs.Nodes.{apex, Kept};
ghost use Rattle.dsec_nodes.specs.World.{on_circle};
ghost use Rattle.dsec_node.specs.Good.{IsGoodAt, IsPair};
ghost use Rattle.dsec_node.specs.KeyTags.{AreTags};
ghost use Rattle.dsec_node.specs.Views.{bounds_view, world_of};

use crate::bounds::Bounds;
use crate::copies::{copy_of, link_copy, links_copy};
use crate::keys::Keys;
use crate::links::{key_set_link, signed_for};
use crate::node::Node;
use crate::pending::Pending;
use crate::standing::Standing;
use dsec_crypto::Verifier;
use dsec_group::Group;
use dsec_link::{Link, LinkKind, Links};
use dsec_name::{NoMemory, Octets};
use dsec_wire::Record;
use std::alloc::Global;

/// The node of a zone below a zone: by the signature at one index of the key set, whose keys have these tags, of the key that the
/// record at another says, of which the DS data `via` speak.
pub fn apex_node<V: Verifier>(
    alloc: Global,
    bounds: &Bounds,
    now: u64,
    zone: &Node<V>,
    pending: &Pending,
    group: &Group,
    tags: Vec<u16>,
    via: &Octets,
    key: usize,
    signature: usize,
) -> Result<Node<V>, NoMemory>
    requires tags { AreTags tags.items (set_in group.now).datas }
    requires key { key < length group.now.records }
    requires signature { signature < length group.now.signatures }
    requires at { SetAt pending.now.name DNSKEY group.now }
    requires ready { (keys : List (List ℕ)) × (zone.now.standing ≡ apex keys) × IsPending (world_of V.accepts [] (bounds_view bounds.now) now) zone.now keys pending.now }
    requires made { zone.now.made ≤ now }
    requires counts { now ≤ zone.now.made + zone.now.valid_for }
    requires good { IsGoodAt (world_of V.accepts [] (bounds_view bounds.now) now) pending.now group.now via.now key signature }
    ensures { IfOk result (λ n. (p : records.Record × Admitted (List ℕ)) → IsPair group.now via.now key signature p
        → n ≡ apex_by (world_of V.accepts [] (bounds_view bounds.now) now) zone.now pending.now group.now p) }
{
    let sig = &group.sig_set()[signature];
    let link = key_set_link(alloc, LinkKind::Key, group, sig, via, &group.rr_set()[key])?;
    let links = child_links(zone, pending, link)?;
    let keys = Keys::with_tags(alloc, group, tags)?;
    let anchor = zone.copied_anchor()?;
    let name = copy_of(pending.name())?;
    let signer = copy_of(pending.name())?;
    let valid_for = valid_for(pending, group, sig, now);
    Ok(Node::new(
        name,
        now,
        valid_for,
        anchor,
        signer,
        links,
        Standing::Apex(keys),
        *bounds,
    ))
}

/// For how long it is kept.
fn valid_for(pending: &Pending, group: &Group, sig: &Record, now: u64) -> u64
    requires { sig.now.rtype ≡ RRSIG }
    ensures { result ≡ min pending.now.valid_for (min (least_ttl group.now.records) (ttl_of sig.now (on_circle now))) }
{
    pending.valid_for().min(signed_for(group, sig, now))
}

/// The links of a zone, and two more.
fn child_links<V: Verifier>(
    zone: &Node<V>,
    pending: &Pending,
    link: Link,
) -> Result<Links, NoMemory>
    ensures links { IfOk result (λ links. links ≡ zone.now.links ++ pending.now.link ∷ link ∷ []) }
    ensures kept { IfOk result (λ links. Kept V.accepts zone.now) }
{
    let copy = links_copy(zone.chain())?;
    let ds = link_copy(pending.link())?;
    joined(copy, ds, link)
}

/// Links with two more at their end.
fn joined(links: Links, first: Link, second: Link) -> Result<Links, NoMemory>
    ensures { IfOk result (λ all. all ≡ links ++ first ∷ second ∷ []) }
{
    let mut all = links.into_vec();
    all.push(first)?;
    all.push(second)?;
    Ok(Links::new(all))
}
