//! How an NSEC3 record bears on a name, before its signatures are tried (RFC 5155 8.1, 8.2, 8.9, RFC 9276 3.2).

ghost use Rattle.std.specs.Prelude.{◌≡◌, ◌&&◌, ◌||◌, List, ℕ, IfOk, Some, nat_lt};
ghost use Rattle.std.specs.Option.{option_map};
ghost use Rattle.dsec_denial.specs.Bearings.{by_bearing};
ghost use Rattle.dsec_denial.specs.Findings.{Follows};
ghost use Rattle.dsec_nodes.specs.MissingByHash.{by_hashes as shown_by_hashes, by_nsec3, is_label_before as label_before, nsec3_in as hashed_in, redirects as redirects_all};
ghost use Rattle.dsec_nodes.specs.Nodes.{Node};
ghost use Rattle.dsec_nodes.specs.Signing.{under_keys};
ghost use Rattle.dsec_nodes.specs.World.{World};
ghost use Rattle.dsec_spec.specs.DenyingRecords.{hash_by};
ghost use Rattle.dsec_spec.specs.Groups as groups;
ghost use Rattle.dsec_spec.specs.Names.{place};
ghost use Rattle.dsec_spec.specs.TypeBitmaps.{has_type};
ghost use Rattle.dsec_wire.specs.DataViews.{nsec3_view};

use crate::owner::{is_label_before, owner_hash_in};
use dsec_cause::Cause;
use dsec_crypto::Verifier;
use dsec_group::{Group, Limits, Memo};
use dsec_name::{Name, NoMemory};
use dsec_nsec3_hash::{hash_of, is_between, supported_nsec3_hash};
use dsec_number::{Class, Rtype};
use dsec_sorted::{OwnerHash, RtypeBitmap};
use dsec_wire::Nsec3;
use std::alloc::Global;

/// How an NSEC3 record bears on a name.
#[derive(Clone, Copy)]
pub(crate) enum Bearing {
    /// It has more iterations than are followed, and whether it has too many.
    Iterates(bool),
    /// It matches the name.
    Matches,
    /// It covers the name, and whether it redirects what is below the zone's name.
    Covers(bool),
}

/// What the group's record says, where it is the only one, of type NSEC3 and class IN.
pub(crate) fn nsec3_in(group: &Group) -> Option<Nsec3<'_>>
    ensures { option_map nsec3_view result ≡ hashed_in group.now }
{
    if group.rtype() != Rtype::NSEC3 || group.class() != Class::IN {
        return None;
    }
    match group.rr_set() {
        [one] => one.rdata().nsec3(),
        _ => None,
    }
}

/// How a group's record bears on a name, or why it says nothing of it. Two names are hashed at most: this one, and the zone's.
pub(crate) fn bears<V: Verifier>(
    alloc: Global,
    nsec3: &Nsec3<'_>,
    group: &Group,
    name: &Name,
    apex: &Name,
    limits: &Limits,
    memo: &mut impl Memo<V>,
) -> Result<Result<Bearing, Option<Cause>>, NoMemory>
    ensures { IfOk result (λ it. (w : World) (zone : Node) (keys : List (List ℕ))
        → zone.signer ≡ place apex.now → Follows limits.now.nsec3_iter_insecure limits.now.nsec3_iter_bogus w
        → by_bearing w zone keys (place name.now) group.now (nsec3_view nsec3.now) (under_keys w zone.signer keys group.now) it
        ≡ by_nsec3 w zone keys (place name.now) group.now (Some (nsec3_view nsec3.now))) }
{
    if nsec3.flags > 1 {
        return Ok(Err(None));
    }
    if !is_label_before(group.owner(), apex)? {
        return Ok(Err(Some(Cause::Nsec3FromWrongZone)));
    }
    if !supported_nsec3_hash(nsec3.hash_algorithm) {
        return Ok(Err(Some(Cause::Nsec3UnsupportedAlgorithm)));
    }
    let too_many = nsec3.iterations > limits.nsec3_iter_bogus;
    if too_many || nsec3.iterations > limits.nsec3_iter_insecure {
        return Ok(Ok(Bearing::Iterates(too_many)));
    }
    match owner_hash_in(alloc, group.owner())? {
        Some(owner_hash) => Ok(by_hashes::<V>(nsec3, &owner_hash, name, apex, memo)),
        None => Ok(Err(Some(Cause::Nsec3BadOwnerHash))),
    }
}

/// The same, by the hash that the owner's label writes.
fn by_hashes<V: Verifier>(
    nsec3: &Nsec3<'_>,
    owner_hash: &OwnerHash,
    name: &Name,
    apex: &Name,
    memo: &mut impl Memo<V>,
) -> Result<Bearing, Option<Cause>>
    ensures { (w : World) (zone : Node) (keys : List (List ℕ)) (group : groups.Group) → zone.signer ≡ place apex.now
        → by_bearing w zone keys (place name.now) group (nsec3_view nsec3.now) (under_keys w zone.signer keys group) result
        ≡ shown_by_hashes w zone keys (place name.now) group (nsec3_view nsec3.now) owner_hash.now (hash_by (nsec3_view nsec3.now).hashing (place name.now)) }
{
    let hash = hash_in::<V>(name, nsec3, memo);
    if hash.as_slice() == owner_hash.as_slice() {
        return Ok(Bearing::Matches);
    }
    if is_between(&hash, owner_hash.as_slice(), nsec3.next_owner) {
        return Ok(Bearing::Covers(redirects::<V>(nsec3, owner_hash, apex, memo)));
    }
    Err(None)
}

/// Whether the record is that of the zone's own name, and has DNAME.
fn redirects<V: Verifier>(
    nsec3: &Nsec3<'_>,
    owner_hash: &OwnerHash,
    apex: &Name,
    memo: &mut impl Memo<V>,
) -> bool
    ensures { result ≡ redirects_all (place apex.now) owner_hash.now (nsec3_view nsec3.now) }
{
    has(nsec3, Rtype::DNAME) && hash_in::<V>(apex, nsec3, memo).as_slice() == owner_hash.as_slice()
}

/// The hash of a name as the record has hashes made (RFC 5155 5).
fn hash_in<V: Verifier>(name: &Name, nsec3: &Nsec3<'_>, memo: &mut impl Memo<V>) -> [u8; 20]
    ensures { result ≡ hash_by (nsec3_view nsec3.now).hashing (place name.now) }
{
    hash_of::<V>(&name.canonical_octets(), nsec3.salt, nsec3.iterations, memo)
}

/// Whether the name has the type whose hash is the record's owner.
pub(crate) fn has(nsec3: &Nsec3<'_>, rtype: Rtype) -> bool
    ensures { result ≡ has_type (nsec3_view nsec3.now).types rtype }
{
    let bitmap = RtypeBitmap {
        octets: nsec3.types,
    };
    bitmap.contains(rtype)
}
