//! Sets that are signed as the records of a zone (RFC 4035 2.2).

ghost use Rattle.std.specs.Prelude.{◌≡◌, List, IfErr, IfOk, OnOk, map};
ghost use Rattle.dsec_spec.specs.CanonicalRecords.{IsCanonical};
ghost use Rattle.dsec_spec.specs.Names.{place};
ghost use Rattle.dsec_spec.specs.Records as entries;
ghost use Rattle.dsec_spec.specs.SignedZones.{AreZoneSignatures, sets_to_sign as zone_sets};
ghost use Rattle.dsec_sorted.specs.SetViews.{members_left};
ghost use Rattle.dsec_rrsig.specs.Signers.{signer_of};
ghost use Rattle.dsec_sign.specs.Refusals.{AreAllowed, IsSetsRefusal};
ghost use Rattle.dsec_sign.specs.SignerAsks.{AskRefusals, all_asked};
ghost use Rattle.dsec_sign.specs.SignerFaults.{AreSameSigners, CountRefusals, SomeRose};

use crate::into::copied;
use crate::zone_records::sign_sorted_zone_records;
use crate::zone_sets::owners_of;
use dsec_name::{Name, NoMemory};
use dsec_number::Timestamp;
use dsec_rrsig::{GenerateRrsigConfig, SignRaw, SigningError, SigningKey};
use dsec_sorted::{Rrset, RrsetIter};
use dsec_wire::Record;
use std::alloc::Global;

/// Records of which the signatures can be asked for that they have in a zone.
pub trait Signable {
    /// The records.
    ghost records: { Self → List entries.Record };

    /// The records, copied, for a `RecordsIter`: that goes over a slice, and those of a set may stand at places of one.
    fn owner_rrs(&self, alloc: Global) -> Result<Vec<Record>, NoMemory>
        ensures { IfOk result (λ all. all.items ≡ records self.now) };

    /// The signatures of the zone that the records make, as `sign_sorted_zone_records` gives them.
    fn sign<I: SignRaw>(
        &self,
        alloc: Global,
        apex: &Name,
        keys: &mut [SigningKey<I>],
        inception: Timestamp,
        expiration: Timestamp,
    ) -> Result<Vec<Record>, SigningError>
        requires canonical { IsCanonical (records self.now) }
        ensures signed { IfOk result (λ all. AreZoneSignatures I.signs (record { inception = inception; expiration = expiration }) (map (signer_of I.key) keys.old) (place apex.now) (records self.now) all.items) }
        ensures allowed { OnOk result (AreAllowed (zone_sets (place apex.now) (records self.now)) (map (signer_of I.key) keys.old) (record { inception = inception; expiration = expiration })) }
        ensures why { IfErr result (λ e. IsSetsRefusal (zone_sets (place apex.now) (records self.now)) (map (signer_of I.key) keys.old) (record { inception = inception; expiration = expiration })
            (SomeRose I.faults keys.old keys.new) e) }
        ensures same { AreSameSigners I.key I.faults keys.old keys.new }
        ensures counts { CountRefusals I.faults keys.old keys.new result }
        ensures asks { AskRefusals (record { inception = inception; expiration = expiration }) (zone_sets (place apex.now) (records self.now)) (all_asked I.key I.asked I.given keys.old) (all_asked I.key I.asked I.given keys.new) result };
}

impl Signable for Rrset<'_> {
    ghost use Rattle.dsec_sorted.specs.SetViews.{members_of};

    ghost records = { λ it. members_of it };

    fn owner_rrs(&self, alloc: Global) -> Result<Vec<Record>, NoMemory> {
        copies(alloc, self.iter())
    }

    fn sign<I: SignRaw>(
        &self,
        alloc: Global,
        apex: &Name,
        keys: &mut [SigningKey<I>],
        inception: Timestamp,
        expiration: Timestamp,
    ) -> Result<Vec<Record>, SigningError> {
        let records = self.owner_rrs(alloc)?;
        let config = GenerateRrsigConfig::new(inception, expiration);
        sign_sorted_zone_records(alloc, apex, owners_of(&records), keys, &config)
    }
}

/// Copies of the records that are left.
fn copies(alloc: Global, records: RrsetIter<'_>) -> Result<Vec<Record>, NoMemory>
    ensures { IfOk result (λ all. all.items ≡ members_left records.entry) }
{
    let mut all = Vec::new(alloc);
    let mut rest = records;
    while let Some(one) = rest.next() {
        all.push(copied(one)?)?;
    }
    Ok(all)
}
