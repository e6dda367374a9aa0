//! The links by which a chain goes on, and for how long they are kept (RFC 4033 2, RFC 4035 5.2, 5.3.3).

ghost use Rattle.std.specs.Prelude.{◌≡◌, ◌≤◌, ◌<◌, ◌++◌, ◌∷◌, [], IfOk, Some, length, min, slice_get};
ghost use Rattle.dsec_spec.specs.Groups.{set_in};
ghost use Rattle.dsec_spec.specs.Lasting.{least_ttl, ttl_for_sig as ttl_of};
ghost use Rattle.dsec_spec.specs.Numbers.{RRSIG};
ghost use Rattle.dsec_spec.specs.Records as records;
ghost use Rattle.dsec_wire.specs.Views.{key_view};
ghost use Rattle.dsec_link.specs.Links.{kind_view};
ghost use Rattle.dsec_nodes.specs.Signing.{kept_for as kept_seconds, link_under};
ghost use Rattle.dsec_nodes.specs.World.{on_circle};
ghost use Rattle.dsec_node.specs.Views.{bounds_view, world_of};

use crate::bounds::Bounds;
use crate::copies::octets_copy;
use crate::keys::Keys;
use crate::node::Node;
use dsec_crypto::Verifier;
use dsec_group::{Group, set_of, ttl_for_sig};
use dsec_link::{Link, LinkKind, Links};
use dsec_name::{NoMemory, Octets};
use dsec_number::Timestamp;
use dsec_wire::{Dnskey, Record};
use std::alloc::Global;

/// The link of a group's set that a key of a zone has signed, by the group's signature at an index.
pub fn link_by_keys(
    alloc: Global,
    kind: LinkKind,
    group: &Group,
    signature: usize,
    keys: &Keys,
    key: &Dnskey<'_>,
) -> Result<Link, NoMemory>
    requires { signature < length group.now.signatures }
    ensures { IfOk result (λ link. (one : records.Record) → slice_get group.now.signatures signature ≡ Some one
        → link ≡ link_under (kind_view kind) keys.now group.now (one, key_view key.now)) }
{
    let sig = &group.sig_set()[signature];
    let signing_key = keys.data_saying(alloc, key)?;
    link_of(alloc, kind, group, sig, None, signing_key)
}

/// The link of a group's set, by the data of what speaks of its key, of its key and of a signature.
pub(crate) fn link_of(
    alloc: Global,
    kind: LinkKind,
    group: &Group,
    sig: &Record,
    via: Option<Octets>,
    signing_key: Octets,
) -> Result<Link, NoMemory>
    requires { sig.now.rtype ≡ RRSIG }
    ensures { IfOk result (λ link. link ≡ record { kind = kind_view kind; records = set_in group.now; via = via; signing_key = signing_key; rrsig = sig.now.rdata }) }
{
    let set = set_of(alloc, group)?;
    let rrsig = sig.rdata().clone()?;
    Link::new(alloc, kind, set, via, signing_key, rrsig)
}

/// The link of a key set, by the data of what speaks of its key.
pub(crate) fn key_set_link(
    alloc: Global,
    kind: LinkKind,
    group: &Group,
    sig: &Record,
    via: &Octets,
    key: &Record,
) -> Result<Link, NoMemory>
    requires { sig.now.rtype ≡ RRSIG }
    ensures { IfOk result (λ link. link ≡ record { kind = kind_view kind; records = set_in group.now; via = Some via.now; signing_key = key.now.rdata; rrsig = sig.now.rdata }) }
{
    let via = octets_copy(via)?;
    let signing_key = octets_copy(key.rdata().octets())?;
    link_of(alloc, kind, group, sig, Some(via), signing_key)
}

/// Links with another at their end.
pub(crate) fn followed_by(links: Links, last: Link) -> Result<Links, NoMemory>
    ensures { IfOk result (λ all. all ≡ links ++ last ∷ []) }
{
    let mut all = links.into_vec();
    all.push(last)?;
    Ok(Links::new(all))
}

/// A link alone.
pub(crate) fn one_link(alloc: Global, link: Link) -> Result<Links, NoMemory>
    ensures { IfOk result (λ links. links ≡ link ∷ []) }
{
    let mut links = Vec::with_capacity(alloc, 1)?;
    links.push(link)?;
    Ok(Links::new(links))
}

/// For how many seconds what a group shows by a signature may be kept: no longer than its records and its signature allow
/// (RFC 4035 5.3.3).
pub(crate) fn signed_for(group: &Group, sig: &Record, now: u64) -> u64
    requires { sig.now.rtype ≡ RRSIG }
    ensures { result ≡ min (least_ttl group.now.records) (ttl_of sig.now (on_circle now)) }
{
    let sig = ttl_for_sig(sig, Timestamp::from_seconds(now));
    u64::from(group.min_ttl().as_secs().min(sig.as_secs()))
}

/// For how many seconds what a group below a zone shows by its signature at an index is kept: no longer than the zone either.
pub fn kept_for<V: Verifier>(
    zone: &Node<V>,
    group: &Group,
    signature: usize,
    bounds: &Bounds,
    now: u64,
) -> u64
    requires signature { signature < length group.now.signatures }
    requires made { zone.now.made ≤ now }
    ensures { (one : records.Record) → slice_get group.now.signatures signature ≡ Some one
        → result ≡ kept_seconds (world_of V.accepts [] (bounds_view bounds.now) now) zone.now group.now one }
{
    let sig = &group.sig_set()[signature];
    zone.ttl(now).min(signed_for(group, sig, now))
}
