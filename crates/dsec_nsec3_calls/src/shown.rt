//! What one NSEC3 record shows (RFC 5155 1.3, 8.3 to 8.8, RFC 6840 4.1, 4.3).

ghost use Rattle.std.specs.Prelude.{◌≡◌, List, ℕ};
ghost use Rattle.std.specs.Str.{bytes_eq};
ghost use Rattle.dsec_nsec3.specs.Tests.{covers_hash, is_hashed_apex, is_hashed_cut, is_own_dname as own_dname, is_plain as plain, matches_hash, own_hash_shows};
ghost use Rattle.dsec_nsec3_calls.specs.Tellings.{told_shown};
ghost use Rattle.dsec_nsec3_calls.specs.Views.{nsec3_at, place_octets};
ghost use Rattle.dsec_spec.specs.DenyingRecords.{hash_by, opts_out as opted_out};
ghost use Rattle.dsec_spec.specs.Names.{Place, place};
ghost use Rattle.dsec_spec.specs.TypeBitmaps.{has_type};
ghost use Rattle.dsec_wire.specs.DataViews.{nsec3_view};

use crate::told::Told;
use dsec_cause::Cause;
use dsec_crypto::Verifier;
use dsec_group::Memo;
use dsec_name::Name;
use dsec_negative::is_ds_above;
use dsec_nsec3_hash::{hash_of, is_between};
use dsec_number::Rtype;
use dsec_sorted::{OwnerHash, RtypeBitmap};
use dsec_wire::Nsec3;

/// The hash of the name with these canonical octets, as the record has hashes made.
pub(crate) fn hash_for<V: Verifier>(
    octets: &[u8],
    nsec3: &Nsec3<'_>,
    memo: &mut impl Memo<V>,
) -> [u8; 20]
    ensures { (n : Place) → octets.now ≡ place_octets n → result ≡ hash_by (nsec3_view nsec3.now).hashing n }
{
    hash_of::<V>(octets, nsec3.salt, nsec3.iterations, memo)
}

/// Whether a hash is that of the record's owner.
pub(crate) fn is_owner(hash: &[u8; 20], owner: &OwnerHash) -> bool
    ensures { result ≡ bytes_eq hash.now owner.now }
{
    hash.as_slice() == owner.as_slice()
}

/// Whether the record matches the name with these canonical octets.
pub(crate) fn matches<V: Verifier>(
    octets: &[u8],
    owner: &OwnerHash,
    nsec3: &Nsec3<'_>,
    memo: &mut impl Memo<V>,
) -> bool
    ensures { (zone n : Place) → octets.now ≡ place_octets n → result ≡ matches_hash (nsec3_at zone owner.now nsec3.now) n }
{
    is_owner(&hash_for::<V>(octets, nsec3, memo), owner)
}

/// Whether it covers it.
pub(crate) fn covers<V: Verifier>(
    octets: &[u8],
    owner: &OwnerHash,
    nsec3: &Nsec3<'_>,
    memo: &mut impl Memo<V>,
) -> bool
    ensures { (zone n : Place) → octets.now ≡ place_octets n → result ≡ covers_hash (nsec3_at zone owner.now nsec3.now) n }
{
    is_between(
        &hash_for::<V>(octets, nsec3, memo),
        owner.as_slice(),
        nsec3.next_owner,
    )
}

/// Whether the record is that of the zone's name, with these canonical octets, and has DNAME.
pub(crate) fn is_own_dname<V: Verifier>(
    zone: &[u8],
    owner: &OwnerHash,
    nsec3: &Nsec3<'_>,
    memo: &mut impl Memo<V>,
) -> bool
    ensures { (signer : Place) → zone.now ≡ place_octets signer → result ≡ own_dname signer (nsec3_at signer owner.now nsec3.now) }
{
    has(nsec3, Rtype::DNAME) && matches::<V>(zone, owner, nsec3, memo)
}

/// Whether the record has the flag Opt-Out.
pub(crate) fn opts_out(nsec3: &Nsec3<'_>) -> bool
    ensures { (zone : Place) (owner : List ℕ) → result ≡ opted_out (nsec3_at zone owner nsec3.now) }
{
    nsec3.flags % 2 == 1
}

/// Whether names below the record's own may be denied beside it.
pub(crate) fn is_plain(nsec3: &Nsec3<'_>) -> bool
    ensures { (zone : Place) (owner : List ℕ) → result ≡ plain (nsec3_at zone owner nsec3.now) }
{
    !has(nsec3, Rtype::DNAME) && !is_cut(nsec3)
}

/// What the record at an index, which matches the target, shows of a type there.
pub(crate) fn own_shows(index: usize, nsec3: &Nsec3<'_>, target: &Name, rtype: Rtype) -> Told
    ensures { (zone : Place) (owner : List ℕ) → result ≡ told_shown index (own_hash_shows (nsec3_at zone owner nsec3.now) (place target.now) rtype) }
{
    if has(nsec3, rtype) || has(nsec3, Rtype::CNAME) {
        return Told::Unshown(Some(Cause::Nsec3ProvesType));
    }
    if is_ds_above(target, rtype) {
        if is_apex(nsec3) {
            return Told::Unshown(Some(Cause::Nsec3FromApexForDs));
        }
        return Told::Disproved(index);
    }
    if is_cut(nsec3) {
        return Told::Unshown(Some(Cause::Nsec3FromParent));
    }
    Told::Disproved(index)
}

/// Whether a record is the zone's above a delegation.
fn is_cut(nsec3: &Nsec3<'_>) -> bool
    ensures { (zone : Place) (owner : List ℕ) → result ≡ is_hashed_cut (nsec3_at zone owner nsec3.now) }
{
    has(nsec3, Rtype::NS) && !has(nsec3, Rtype::SOA)
}

/// Whether a record is of a zone's apex.
fn is_apex(nsec3: &Nsec3<'_>) -> bool
    ensures { (zone : Place) (owner : List ℕ) → result ≡ is_hashed_apex (nsec3_at zone owner nsec3.now) }
{
    has(nsec3, Rtype::NS) && has(nsec3, Rtype::SOA)
}

/// Whether the name has the type whose hash is the record's owner.
pub(crate) fn has(nsec3: &Nsec3<'_>, rtype: Rtype) -> bool
    ensures { result ≡ has_type nsec3.now.types.now rtype }
{
    let bitmap = RtypeBitmap {
        octets: nsec3.types,
    };
    bitmap.contains(rtype)
}
