//! Zones that are signed (RFC 4035 2).

ghost use Rattle.std.specs.Prelude.{◌≡◌, List, IfErr, OnOk, map};
ghost use Rattle.dsec_spec.specs.CanonicalRecords.{AreOfOneClass, IsCanonical};
ghost use Rattle.dsec_spec.specs.Records as entries;
ghost use Rattle.dsec_rrsig.specs.Signers.{signer_of};
ghost use Rattle.dsec_sign.specs.SignerAsks.{AskZone, all_asked};
ghost use Rattle.dsec_sign.specs.SignerFaults.{AreSameSigners, CountRefusals, SomeRose};
ghost use Rattle.dsec_sign.specs.ZoneSigning.{IsZoneRefusal, SignsZone};

use crate::config::SigningConfig;
use crate::in_place::sign_in_place;
use crate::into::sign_into;
use crate::sorted_extend::SortedExtend;
use dsec_name::Name;
use dsec_rrsig::{SignRaw, SigningError, SigningKey};
use dsec_sorted::SortedRecords;
use dsec_wire::Record;
use std::alloc::Global;
use std::mem;

/// A zone that can be signed, its chain and its signatures being added to other records.
pub trait SignableZone {
    /// The zone's records.
    ghost zone: { Self → List entries.Record };

    /// Adds the chain and the signatures of the zone to other records. Zone and chain merged are signed.
    fn sign_zone<T: SortedExtend, I: SignRaw>(
        &self,
        alloc: Global,
        apex: &Name,
        config: &SigningConfig,
        keys: &mut [SigningKey<I>],
        out: &mut T,
    ) -> Result<(), SigningError>
        requires canonical { IsCanonical (zone self.now) }
        requires class { AreOfOneClass (zone self.now) }
        ensures signed { OnOk result (SignsZone I.signs config.now (map (signer_of I.key) keys.old) apex.now (zone self.now) (T.records out.old) (T.records out.new)) }
        ensures why { IfErr result (λ e. IsZoneRefusal config.now (map (signer_of I.key) keys.old) (SomeRose I.faults keys.old keys.new) apex.now
            (zone self.now) (T.records out.old) (T.records out.new) e) }
        ensures same { AreSameSigners I.key I.faults keys.old keys.new }
        ensures counts { CountRefusals I.faults keys.old keys.new result }
        ensures asks { AskZone config.now apex.now (zone self.now) (all_asked I.key I.asked I.given keys.old) (all_asked I.key I.asked I.given keys.new) result };
}

impl SignableZone for Vec<Record> {
    ghost zone = { λ it. it.items };

    fn sign_zone<T: SortedExtend, I: SignRaw>(
        &self,
        alloc: Global,
        apex: &Name,
        config: &SigningConfig,
        keys: &mut [SigningKey<I>],
        out: &mut T,
    ) -> Result<(), SigningError> {
        sign_into(alloc, apex, self.as_slice(), config, keys, out)
    }
}

impl SignableZone for SortedRecords {
    ghost zone = { λ it. it };

    fn sign_zone<T: SortedExtend, I: SignRaw>(
        &self,
        alloc: Global,
        apex: &Name,
        config: &SigningConfig,
        keys: &mut [SigningKey<I>],
        out: &mut T,
    ) -> Result<(), SigningError> {
        sign_into(alloc, apex, self.as_slice(), config, keys, out)
    }
}

/// A zone that can be signed in place.
pub trait SignableZoneInPlace {
    /// The zone's records.
    ghost zone: { Self → List entries.Record };

    /// Adds to the zone its chain and its signatures.
    fn sign_zone<I: SignRaw>(
        &mut self,
        alloc: Global,
        apex: &Name,
        config: &SigningConfig,
        keys: &mut [SigningKey<I>],
    ) -> Result<(), SigningError>
        requires canonical { IsCanonical (zone self.old) }
        requires class { AreOfOneClass (zone self.old) }
        ensures signed { OnOk result (SignsZone I.signs config.now (map (signer_of I.key) keys.old) apex.now (zone self.old) (zone self.old) (zone self.new)) }
        ensures why { IfErr result (λ e. IsZoneRefusal config.now (map (signer_of I.key) keys.old) (SomeRose I.faults keys.old keys.new) apex.now
            (zone self.old) (zone self.old) (zone self.new) e) }
        ensures canonical { IsCanonical (zone self.new) }
        ensures same { AreSameSigners I.key I.faults keys.old keys.new }
        ensures counts { CountRefusals I.faults keys.old keys.new result }
        ensures asks { AskZone config.now apex.now (zone self.old) (all_asked I.key I.asked I.given keys.old) (all_asked I.key I.asked I.given keys.new) result };
}

impl SignableZoneInPlace for Vec<Record> {
    ghost zone = { λ it. it.items };

    fn sign_zone<I: SignRaw>(
        &mut self,
        alloc: Global,
        apex: &Name,
        config: &SigningConfig,
        keys: &mut [SigningKey<I>],
    ) -> Result<(), SigningError> {
        sign_in_place(alloc, apex, self, config, keys)
    }
}

impl SignableZoneInPlace for SortedRecords {
    ghost zone = { λ it. it };

    fn sign_zone<I: SignRaw>(
        &mut self,
        alloc: Global,
        apex: &Name,
        config: &SigningConfig,
        keys: &mut [SigningKey<I>],
    ) -> Result<(), SigningError> {
        let mut records = mem::replace(self, SortedRecords::new(alloc)).into_vec();
        let result = sign_in_place(alloc, apex, &mut records, config, keys);
        *self = SortedRecords::from_vec(records);
        result
    }
}
