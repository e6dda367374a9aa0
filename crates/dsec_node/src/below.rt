//! What is known of a name at which no zone with a chain begins (RFC 4035 5.2).

ghost use Rattle.std.specs.Prelude.{◌≡◌, ◌<◌, ◌≤◌, [], IfOk, Some, length, slice_get};
ghost use Rattle.dsec_spec.specs.Names.{place};
ghost use Rattle.dsec_spec.specs.Records as records;
ghost use Rattle.dsec_wire.specs.Views.{key_view};
ghost use Rattle.dsec_nodes.specs.MissingDs.{bogus_at, insecure_by, within_by};
ghost use Rattle.dsec_nodes.specs.Nodes.{within, Kept};
ghost use Rattle.dsec_node.specs.Views.{bounds_view, ground_view, standing_view, world_of};

use crate::bounds::Bounds;
use crate::copies::{copy_of, links_copy};
use crate::keys::Keys;
use crate::links::{followed_by, kept_for, link_by_keys};
use crate::node::Node;
use crate::standing::{Ground, SignedCause, Standing};
use dsec_cause::Cause;
use dsec_crypto::Verifier;
use dsec_group::Group;
use dsec_link::{Link, LinkKind, Links};
use dsec_name::{Name, NoMemory};
use dsec_wire::Dnskey;
use std::alloc::Global;

/// The node of a name within a zone, at which no zone begins: by a group of the zone that shows it, and its signature at an index,
/// of a key of the zone's. That the node holds is the caller's to see.
pub fn within_node<V: Verifier>(
    alloc: Global,
    bounds: &Bounds,
    now: u64,
    zone: &Node<V>,
    keys: &Keys,
    name: &Name,
    group: &Group,
    signature: usize,
    key: &Dnskey<'_>,
) -> Result<Node<V>, NoMemory>
    requires signature { signature < length group.now.signatures }
    requires made { zone.now.made ≤ now }
    requires kept { (one : records.Record) → slice_get group.now.signatures signature ≡ Some one
        → Kept V.accepts (within_by (world_of V.accepts [] (bounds_view bounds.now) now) zone.now keys.now (place name.now) group.now (one, key_view key.now)) }
    ensures { IfOk result (λ n. (one : records.Record) → slice_get group.now.signatures signature ≡ Some one
        → n ≡ within_by (world_of V.accepts [] (bounds_view bounds.now) now) zone.now keys.now (place name.now) group.now (one, key_view key.now)) }
{
    let valid_for = kept_for(zone, group, signature, bounds, now);
    let last = link_by_keys(alloc, LinkKind::Set, group, signature, keys, key)?;
    within_at(zone, name, last, valid_for, bounds, now)
}

/// A node of a name within a zone, with the zone's name, anchor and links.
fn within_at<V: Verifier>(
    zone: &Node<V>,
    name: &Name,
    last: Link,
    valid_for: u64,
    bounds: &Bounds,
    now: u64,
) -> Result<Node<V>, NoMemory>
    requires { Kept V.accepts (record { name = place name.now; made = now; valid_for = valid_for; anchor = zone.now.anchor; signer = zone.now.signer; links = zone.now.links; standing = within last; bounds = bounds_view bounds.now }) }
    ensures { IfOk result (λ n. n ≡ record { name = place name.now; made = now; valid_for = valid_for; anchor = zone.now.anchor; signer = zone.now.signer; links = zone.now.links; standing = within last; bounds = bounds_view bounds.now }) }
{
    let links = links_copy(zone.chain())?;
    let anchor = zone.copied_anchor()?;
    let name = copy_of(name)?;
    let signer = copy_of(zone.signer_name())?;
    Ok(Node::new_intermediate(name, signer, anchor, links, last, now, valid_for, *bounds))
}

/// The node of a name to which no chain leads: by a group of the zone that shows it, and its signature at an index, of a key of
/// the zone's. That the node holds is the caller's to see.
pub fn insecure_node<V: Verifier>(
    alloc: Global,
    bounds: &Bounds,
    now: u64,
    zone: &Node<V>,
    keys: &Keys,
    name: &Name,
    cause: Option<Cause>,
    basis: Ground,
    group: &Group,
    signature: usize,
    key: &Dnskey<'_>,
) -> Result<Node<V>, NoMemory>
    requires signature { signature < length group.now.signatures }
    requires made { zone.now.made ≤ now }
    requires kept { (one : records.Record) → slice_get group.now.signatures signature ≡ Some one
        → Kept V.accepts (insecure_by (world_of V.accepts [] (bounds_view bounds.now) now) zone.now keys.now (place name.now) cause (ground_view basis) group.now (one, key_view key.now)) }
    ensures { IfOk result (λ n. (one : records.Record) → slice_get group.now.signatures signature ≡ Some one
        → n ≡ insecure_by (world_of V.accepts [] (bounds_view bounds.now) now) zone.now keys.now (place name.now) cause (ground_view basis) group.now (one, key_view key.now)) }
{
    let valid_for = kept_for(zone, group, signature, bounds, now);
    let link = link_by_keys(alloc, LinkKind::Set, group, signature, keys, key)?;
    let to_zone = links_copy(zone.chain())?;
    let links = followed_by(to_zone, link)?;
    let standing = Standing::Insecure(cause, SignedCause { basis, links });
    insecure_at(zone, name, standing, valid_for, bounds, now)
}

/// A node of a name below a zone, with the zone's anchor and links.
fn insecure_at<V: Verifier>(
    zone: &Node<V>,
    name: &Name,
    standing: Standing,
    valid_for: u64,
    bounds: &Bounds,
    now: u64,
) -> Result<Node<V>, NoMemory>
    requires { Kept V.accepts (record { name = place name.now; made = now; valid_for = valid_for; anchor = zone.now.anchor; signer = place name.now; links = zone.now.links; standing = standing_view standing; bounds = bounds_view bounds.now }) }
    ensures { IfOk result (λ n. n ≡ record { name = place name.now; made = now; valid_for = valid_for; anchor = zone.now.anchor; signer = place name.now; links = zone.now.links; standing = standing_view standing; bounds = bounds_view bounds.now }) }
{
    let links = links_copy(zone.chain())?;
    let anchor = zone.copied_anchor()?;
    let signer = copy_of(name)?;
    Node::new_delegation(signer, standing, anchor, links, now, valid_for, *bounds)
}

/// A bogus node, which holds whatever was found out.
pub fn bogus_node<V: Verifier>(
    alloc: Global,
    bounds: &Bounds,
    now: u64,
    name: &Name,
    cause: Cause,
) -> Result<Node<V>, NoMemory>
    ensures { IfOk result (λ n. n ≡ bogus_at (world_of V.accepts [] (bounds_view bounds.now) now) (place name.now) cause) }
{
    let signer = copy_of(name)?;
    let links = Links::new(Vec::new(alloc));
    Node::new_delegation(
        signer,
        Standing::Bogus(cause),
        None,
        links,
        now,
        bounds.max_bogus_validity,
        *bounds,
    )
}
