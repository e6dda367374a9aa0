//! The signatures of a zone (RFC 4035 2.2).

ghost use Rattle.std.specs.Prelude.{◌≡◌, IfErr, IfOk, OnOk, map};
ghost use Rattle.dsec_spec.specs.CanonicalRecords.{AreOfOneClass, IsCanonical};
ghost use Rattle.dsec_spec.specs.Names.{place};
ghost use Rattle.dsec_spec.specs.SignedZones.{AreZoneSignatures, sets_to_sign as zone_sets};
ghost use Rattle.dsec_sorted.specs.IterViews.{left_of};
ghost use Rattle.dsec_rrsig.specs.Signers.{period_of, signer_of};
ghost use Rattle.dsec_sign.specs.Refusals.{AreAllowed, IsSetsRefusal};
ghost use Rattle.dsec_sign.specs.SignerAsks.{AskRefusals, all_asked};
ghost use Rattle.dsec_sign.specs.SignerFaults.{AreSameSigners, CountRefusals, SomeRose};

use crate::allowed::allow;
use crate::signing::sign_sets;
use crate::zone_sets::sets_to_sign;
use dsec_name::Name;
use dsec_rrsig::{GenerateRrsigConfig, SignRaw, SigningError, SigningKey};
use dsec_sorted::RecordsIter;
use dsec_wire::Record;
use std::alloc::Global;

/// The signatures of the zone that records in canonical order make, without duplicates and of one class: of each set that is signed
/// one by each key, set by set. Signed are the sets at or below the apex and not strictly below a delegation, but for signatures, the
/// sets of keys at the apex, and at a delegation all but DS and NSEC.
pub fn sign_sorted_zone_records<I: SignRaw>(
    alloc: Global,
    apex: &Name,
    records: RecordsIter<'_>,
    keys: &mut [SigningKey<I>],
    config: &GenerateRrsigConfig,
) -> Result<Vec<Record>, SigningError>
    requires canonical { IsCanonical (left_of records) }
    requires class { AreOfOneClass (left_of records) }
    ensures signed { IfOk result (λ all. AreZoneSignatures I.signs (period_of config.now) (map (signer_of I.key) keys.old) (place apex.now) (left_of records.entry) all.items) }
    ensures allowed { OnOk result (AreAllowed (zone_sets (place apex.now) (left_of records.entry)) (map (signer_of I.key) keys.old) (period_of config.now)) }
    ensures why { IfErr result (λ e. IsSetsRefusal (zone_sets (place apex.now) (left_of records.entry)) (map (signer_of I.key) keys.old) (period_of config.now)
        (SomeRose I.faults keys.old keys.new) e) }
    ensures same { AreSameSigners I.key I.faults keys.old keys.new }
    ensures counts { CountRefusals I.faults keys.old keys.new result }
    ensures asks { AskRefusals (period_of config.now) (zone_sets (place apex.now) (left_of records.entry)) (all_asked I.key I.asked I.given keys.old) (all_asked I.key I.asked I.given keys.new) result }
{
    let sets = sets_to_sign(alloc, apex, &records)?;
    allow(records.as_slice(), &sets, keys, config)?;
    let all = sign_sets(alloc, records.as_slice(), &sets, keys, config)?;
    Ok(all)
}
