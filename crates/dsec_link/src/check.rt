//! The tests of a signature that come before the verifier's (RFC 4035 5.3.1).

ghost use Rattle.std.specs.Prelude.{◌≡◌, ◌↔◌, IsTrue};
ghost use Rattle.dsec_spec.specs.Names.{place};
ghost use Rattle.dsec_spec.specs.Signed.{IsZoneKey};
ghost use Rattle.dsec_wire.specs.Views.{key_view, rrsig_view};
ghost use Rattle.dsec_link.specs.TaggedKeys.{tagged_view};
ghost use Rattle.dsec_link.specs.Tests.{MaySign, Names};

use crate::tagged_key::TaggedKey;
use dsec_name::Name;
use dsec_number::{Rtype, Timestamp};
use dsec_wire::{Dnskey, Rrsig};

/// Whether the signature names the key and the zone: by the signer's name, the algorithm and the key's tag
/// (RFC 4035 5.3.1).
pub fn matches(rrsig: &Rrsig<'_>, key: &TaggedKey<'_>, zone: &Name) -> bool
    ensures { IsTrue result ↔ Names (rrsig_view rrsig.now) (tagged_view key.now) (place zone.now) }
{
    rrsig.key_tag == key.tag && rrsig.algorithm == key.key.algorithm && rrsig.signer_name.is(zone)
}

/// Whether the tests of a signature over a set of this owner and type pass that are neither the verifier's nor those of
/// `matches` (RFC 4034 2.1, RFC 4035 5.3.1). They take no memory. Where these two and the verifier say yes, the signature
/// counts.
pub fn may_sign(
    owner: &Name,
    rtype: Rtype,
    rrsig: &Rrsig<'_>,
    key: &Dnskey<'_>,
    zone: &Name,
    t: Timestamp,
) -> bool
    ensures { IsTrue result ↔ MaySign owner.now rtype (rrsig_view rrsig.now) (key_view key.now) (place zone.now) t }
{
    rrsig.type_covered == rtype
        && usize::from(rrsig.labels) < owner.label_count()
        && is_zone_key(key)
        && t.in_period(rrsig.inception, rrsig.expiration)
        && owner.ends_with(zone)
}

/// Whether the key has the zone flag and the protocol 3 (RFC 4034 2.1.1, 2.1.2).
fn is_zone_key(key: &Dnskey<'_>) -> bool
    ensures { IsTrue result ↔ IsZoneKey (key_view key.now) }
{
    key.flags / 256 % 2 == 1 && key.protocol == 3
}
