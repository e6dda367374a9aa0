//! A zone that is signed in place (RFC 4035 2).

ghost use Rattle.std.specs.Prelude.{◌≡◌, IfErr, OnOk, map};
ghost use Rattle.dsec_spec.specs.CanonicalRecords.{AreOfOneClass, IsCanonical};
ghost use Rattle.dsec_rrsig.specs.Signers.{signer_of};
ghost use Rattle.dsec_sign.specs.SignerAsks.{AskZone, all_asked};
ghost use Rattle.dsec_sign.specs.SignerFaults.{AreSameSigners, CountRefusals, SomeRose};
ghost use Rattle.dsec_sign.specs.ZoneSigning.{IsZoneRefusal, SignsZone};

use crate::added::add_zone_signatures;
use crate::chain::chain_of;
use crate::config::SigningConfig;
use crate::zone_sets::owners_of;
use dsec_name::Name;
use dsec_rrsig::{SignRaw, SigningError, SigningKey};
use dsec_sorted::extend_sorted;
use dsec_wire::Record;
use std::alloc::Global;

/// Adds to a zone in canonical order, without duplicates and of one class, its chain and its signatures.
pub(crate) fn sign_in_place<I: SignRaw>(
    alloc: Global,
    apex: &Name,
    records: &mut Vec<Record>,
    config: &SigningConfig,
    keys: &mut [SigningKey<I>],
) -> Result<(), SigningError>
    requires canonical { IsCanonical records.old.items }
    requires class { AreOfOneClass records.old.items }
    ensures signed { OnOk result (SignsZone I.signs config.now (map (signer_of I.key) keys.old) apex.now records.old.items records.old.items records.new.items) }
    ensures why { IfErr result (λ e. IsZoneRefusal config.now (map (signer_of I.key) keys.old) (SomeRose I.faults keys.old keys.new) apex.now
        records.old.items records.old.items records.new.items e) }
    ensures canonical { IsCanonical records.new.items }
    ensures same { AreSameSigners I.key I.faults keys.old keys.new }
    ensures counts { CountRefusals I.faults keys.old keys.new result }
    ensures asks { AskZone config.now apex.now records.old.items (all_asked I.key I.asked I.given keys.old) (all_asked I.key I.asked I.given keys.new) result }
{
    let chain = chain_of(alloc, apex, owners_of(records), &config.denial)?;
    extend_sorted(records, chain)?;
    let rrsigs = config.rrsigs();
    match add_zone_signatures(alloc, apex, records, keys, &rrsigs) {
        Ok(()) => Ok(()),
        Err(error) => Err(error),
    }
}
