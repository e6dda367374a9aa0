//! What one NSEC3 record that counts shows of a name that was hashed for it (RFC 5155 8.3, RFC 6840 4.1).

ghost use Rattle.std.specs.Prelude.{◌≡◌, ◌≤◌, ℕ, List, Some};
ghost use Rattle.dsec_nsec3.specs.Walks as walks;
ghost use Rattle.dsec_nsec3.specs.Walks.{look_by, look_covered, look_matched};
ghost use Rattle.dsec_nsec3_calls.specs.Looks.{glance_left, glance_to, look_view, top_of};
ghost use Rattle.dsec_nsec3_calls.specs.Views.{nsec3_at, place_octets};
ghost use Rattle.dsec_spec.specs.Names.{Place};

use crate::asked::Asked;
use crate::look::{Glance, Look};
use crate::shown::{has, hash_for, is_owner, is_plain, matches, opts_out};
use dsec_crypto::Verifier;
use dsec_group::Memo;
use dsec_nsec3_hash::is_between;
use dsec_number::Rtype;
use dsec_sorted::OwnerHash;
use dsec_wire::Nsec3;

/// What the record of the group at this index shows of the name, where so many hashes may be made besides the one that is made here.
pub(crate) fn by_record<V: Verifier>(
    asked: &Asked<'_>,
    index: usize,
    left: u8,
    owner: &OwnerHash,
    nsec3: &Nsec3<'_>,
    memo: &mut impl Memo<V>,
) -> Glance
    ensures look { (zone n : Place) (later : ℕ → walks.Look) → asked.now.octets.now ≡ place_octets n → asked.now.zone.now ≡ place_octets zone
        → glance_to result later ≡ look_by (top_of asked.now.is_top zone) n index left (nsec3_at zone owner.now nsec3.now) (later left) }
    ensures fewer { glance_left result ≤ left }
{
    let hash = hash_for::<V>(asked.octets, nsec3, memo);
    if is_owner(&hash, owner) {
        return Glance::Ends(matched(index, nsec3), left);
    }
    if is_between(&hash, owner.as_slice(), nsec3.next_owner) {
        let (look, after) = covered::<V>(asked, index, left, owner, nsec3, memo);
        return Glance::Ends(look, after);
    }
    Glance::Past(left)
}

/// What a record that matches the name shows.
fn matched(index: usize, nsec3: &Nsec3<'_>) -> Look
    ensures { (left : ℕ) (zone : Place) (owner : List ℕ) → look_view result left ≡ look_matched index left (nsec3_at zone owner nsec3.now) }
{
    if is_plain(nsec3) {
        Look::Matched(index)
    } else {
        Look::Bars
    }
}

/// What a record that covers the name shows; and how many hashes may still be made.
fn covered<V: Verifier>(
    asked: &Asked<'_>,
    index: usize,
    left: u8,
    owner: &OwnerHash,
    nsec3: &Nsec3<'_>,
    memo: &mut impl Memo<V>,
) -> (Look, u8)
    ensures look { (zone : Place) → asked.now.zone.now ≡ place_octets zone
        → look_view result.0 result.1 ≡ look_covered (top_of asked.now.is_top zone) index left (nsec3_at zone owner.now nsec3.now) }
    ensures fewer { result.1 ≤ left }
{
    if asked.is_top {
        covered_at_top::<V>(asked.zone, index, left, owner, nsec3, memo)
    } else {
        (Look::Covered(index, opts_out(nsec3)), left)
    }
}

/// The same of the name next to the zone's: one with DNAME says nothing of it where it is the zone's own, which takes one more hash to tell.
fn covered_at_top<V: Verifier>(
    zone: &[u8],
    index: usize,
    left: u8,
    owner: &OwnerHash,
    nsec3: &Nsec3<'_>,
    memo: &mut impl Memo<V>,
) -> (Look, u8)
    ensures look { (signer : Place) → zone.now ≡ place_octets signer → look_view result.0 result.1 ≡ look_covered (Some signer) index left (nsec3_at signer owner.now nsec3.now) }
    ensures fewer { result.1 ≤ left }
{
    let opt_out = opts_out(nsec3);
    if !has(nsec3, Rtype::DNAME) {
        return (Look::Covered(index, opt_out), left);
    }
    if left == 0 {
        return (Look::Exhausts, 0);
    }
    if matches::<V>(zone, owner, nsec3, memo) {
        (Look::Bars, left - 1)
    } else {
        (Look::Covered(index, opt_out), left - 1)
    }
}
