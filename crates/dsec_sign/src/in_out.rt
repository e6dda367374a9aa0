//! Zones that are signed by one call, in place or into other records (RFC 4035 2).

ghost use Rattle.std.specs.Prelude.{IfErr, OnOk, map};
ghost use Rattle.dsec_spec.specs.CanonicalRecords.{AreOfOneClass, IsCanonical};
ghost use Rattle.dsec_rrsig.specs.Signers.{signer_of};
ghost use Rattle.dsec_sign.specs.InOut.{EndsAs, EndsInPlaceAs, old_records, zone_records};
ghost use Rattle.dsec_sign.specs.SignerAsks.{AskZone, all_asked};
ghost use Rattle.dsec_sign.specs.SignerFaults.{AreSameSigners, CountRefusals, SomeRose};
ghost use Rattle.dsec_sign.specs.ZoneSigning.{IsZoneRefusal, SignsZone};

use crate::config::SigningConfig;
use crate::sorted_extend::SortedExtend;
use crate::zone::{SignableZone, SignableZoneInPlace};
use dsec_name::Name;
use dsec_rrsig::{SignRaw, SigningError, SigningKey};
use std::alloc::Global;

/// A zone that is to be signed, and where its chain and its signatures go.
#[derive(Drop)]
pub enum SignableZoneInOut<'a, S, T> {
    /// To the zone itself.
    SignInPlace(&'a mut T),
    /// To other records; the zone stays as it is.
    SignInto(&'a S, &'a mut T),
}

/// Adds the chain and the signatures of a zone to it or to other records, as `SignableZoneInPlace::sign_zone` and
/// `SignableZone::sign_zone` do.
pub fn sign_zone<S: SignableZone, T: SignableZoneInPlace + SortedExtend, I: SignRaw>(
    alloc: Global,
    apex: &Name,
    in_out: SignableZoneInOut<'_, S, T>,
    config: &SigningConfig,
    keys: &mut [SigningKey<I>],
) -> Result<(), SigningError>
    requires canonical { IsCanonical (zone_records S.zone T.zone in_out) }
    requires class { AreOfOneClass (zone_records S.zone T.zone in_out) }
    ensures signed { OnOk result (EndsAs T.zone T.records in_out.entry in_out.exit
        (SignsZone I.signs config.now (map (signer_of I.key) keys.old) apex.now (zone_records S.zone T.zone in_out.entry)
        (old_records T.zone T.records in_out.entry))) }
    ensures why { IfErr result (λ e. EndsAs T.zone T.records in_out.entry in_out.exit
        (λ new. IsZoneRefusal config.now (map (signer_of I.key) keys.old) (SomeRose I.faults keys.old keys.new) apex.now
        (zone_records S.zone T.zone in_out.entry) (old_records T.zone T.records in_out.entry) new e)) }
    ensures canonical { EndsInPlaceAs T.zone in_out.entry in_out.exit IsCanonical }
    ensures same { AreSameSigners I.key I.faults keys.old keys.new }
    ensures counts { CountRefusals I.faults keys.old keys.new result }
    ensures asks { AskZone config.now apex.now (zone_records S.zone T.zone in_out.entry) (all_asked I.key I.asked I.given keys.old) (all_asked I.key I.asked I.given keys.new) result }
{
    match in_out {
        SignableZoneInOut::SignInPlace(zone) => {
            SignableZoneInPlace::sign_zone(zone, alloc, apex, config, keys)
        }
        SignableZoneInOut::SignInto(zone, out) => {
            SignableZone::sign_zone(zone, alloc, apex, config, keys, out)
        }
    }
}
