//! The gap between an NSEC record's owner and its next name (RFC 4034 4.1.1).

ghost use Rattle.std.specs.Prelude.{◌≡◌, ◌↔◌, IsTrue, false};
ghost use Rattle.dsec_nodes.specs.MissingDs.{is_in_range};
ghost use Rattle.dsec_spec.specs.DenyingRecords.{IsInRange};
ghost use Rattle.dsec_spec.specs.Names.{place};

use dsec_name::Name;

/// Whether the target is in the gap of an NSEC record with this owner and this next name: after the owner, and before the next
/// name. The next name of a zone's last record is the apex, which isn't after the owner, and so no end (RFC 4034 4.1.1).
pub fn nsec_in_range(target: &Name, owner: &Name, next: &Name) -> bool
    ensures exact { IsTrue result ↔ IsInRange (place owner.now) (place next.now) (place target.now) }
    ensures not_the_owner { place target.now ≡ place owner.now → result ≡ false }
    ensures test { result ≡ is_in_range (place owner.now) (place next.now) (place target.now) }
{
    owner.canonical_cmp(target).is_lt()
        && (target.canonical_cmp(next).is_lt() || !owner.canonical_cmp(next).is_lt())
}
