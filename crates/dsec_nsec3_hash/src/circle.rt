//! The circle of hashes, and the gap between an NSEC3 record's owner and its next hash (RFC 5155 1.3, 3.1.7).

ghost use Rattle.std.specs.Prelude.{◌≡◌, ◌↔◌, IsTrue, false};
ghost use Rattle.dsec_nsec3_hash.specs.Circle.{is_inside};
ghost use Rattle.dsec_spec.specs.DenyingRecords.{IsBetween};

use dsec_sorted::OwnerHash;

/// Whether the target is in the gap of an NSEC3 record with this owner hash and this next hash: strictly inside the arc that goes from
/// the owner to the next. The arc of the circle's last record goes by the end, and that of a zone's only record is all but its owner.
pub fn nsec3_in_range(target: &OwnerHash, owner: &OwnerHash, next: &OwnerHash) -> bool
    ensures exact { IsTrue result ↔ IsBetween owner.now next.now target.now }
    ensures not_the_owner { target.now ≡ owner.now → result ≡ false }
    ensures test { result ≡ is_inside owner.now next.now target.now }
{
    is_between(target.as_slice(), owner.as_slice(), next.as_slice())
}

/// The same, of hashes as octets.
pub fn is_between(target: &[u8], owner: &[u8], next: &[u8]) -> bool
    ensures exact { IsTrue result ↔ IsBetween owner.now next.now target.now }
    ensures not_the_owner { target.now ≡ owner.now → result ≡ false }
    ensures test { result ≡ is_inside owner.now next.now target.now }
{
    stands_inside(target, owner, next)
}

/// The test alone.
fn stands_inside(target: &[u8], owner: &[u8], next: &[u8]) -> bool
    ensures { result ≡ is_inside owner.now next.now target.now }
{
    if owner.cmp(next).is_lt() {
        owner.cmp(target).is_lt() && target.cmp(next).is_lt()
    } else {
        owner.cmp(target).is_lt() || target.cmp(next).is_lt()
    }
}
