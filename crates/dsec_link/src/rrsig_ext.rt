//! What an RRSIG is used for (RFC 4034 3.1.8.1, RFC 4035 5.3).

ghost use Rattle.std.specs.Prelude.{◌≡◌, ◌≢◌, ◌↔◌, ◌++◌, Err, IfOk, IsOk, IsTrue, OnErr, OnOk, IsPermutation, map};
ghost use Rattle.dsec_crypto.specs.declared.error.AlgorithmError.TheVariants.{InvalidData};
ghost use Rattle.dsec_spec.specs.Records as records;
ghost use Rattle.dsec_spec.specs.SignedBytes.{ascending};
ghost use Rattle.dsec_wire.specs.Views.{rrsig_view};
ghost use Rattle.dsec_link.specs.Sets.{OfOneType, canonical_record};
ghost use Rattle.dsec_link.specs.Signing.{encloser_of, signed_of};

use crate::bytes::encloser;
use crate::signing::push_signed;
use crate::verified::verify;
use dsec_crypto::{AlgorithmError, Verifier};
use dsec_name::{Name, NoMemory};
use dsec_wire::{Dnskey, Record, Rrsig};
use std::alloc::Global;

/// What an RRSIG's signature is over, and whether it is good.
pub trait RrsigExt {
    /// What the RRSIG record says.
    ghost says: { Self → records.Rrsig };

    /// Adds the octets that the signature over these records of one owner, class and type is over, and brings the
    /// records into the order of their canonical data (RFC 4034 3.1.8.1, 6.3). The owner and the class are
    /// those of the first record; of no records it adds the RRSIG's data up to the signature.
    fn signed_data(
        &self,
        alloc: Global,
        buf: &mut Vec<u8>,
        records: &mut [Record],
    ) -> Result<(), NoMemory>
        requires { OfOneType records.old }
        ensures ok { OnOk result (buf.new.items ≡ buf.old.items ++ signed_of (says self.now) records.old) }
        ensures sorted { OnOk result (map canonical_record records.new ≡ ascending (map canonical_record records.old)) }
        ensures permuted { IsPermutation records.old records.new }
        ensures unchanged { OnErr result (buf.new.items ≡ buf.old.items) }
        ensures kept { OnErr result (records.new ≡ records.old) };

    /// The closest encloser of a wildcard's expansion: the owner's rightmost labels, where the signature counts fewer
    /// than the owner has (RFC 4035 5.3.4). At the wildcard's own name too, whose `*` no signature counts: that is no expansion.
    fn wildcard_closest_encloser(
        &self,
        alloc: Global,
        rr: &Record,
    ) -> Result<Option<Name>, NoMemory>
        ensures { IfOk result (λ found. found ≡ encloser_of (says self.now).labels rr.now.owner) };

    /// Whether the verifier accepts the signature as the key's over the octets; `InvalidData` where their algorithms
    /// differ.
    fn verify_signed_data<V: Verifier>(
        &self,
        dnskey: &Dnskey<'_>,
        octets: &[u8],
    ) -> Result<(), AlgorithmError>
        ensures same { (says self.now).algorithm ≡ dnskey.now.algorithm → (IsOk result
            ↔ IsTrue (V.accepts dnskey.now.flags dnskey.now.protocol dnskey.now.algorithm dnskey.now.public_key.now octets.now (says self.now).signature)) }
        ensures other { (says self.now).algorithm ≢ dnskey.now.algorithm → result ≡ Err InvalidData };
}

impl<'a> RrsigExt for Rrsig<'a> {
    ghost says = { rrsig_view };

    fn signed_data(
        &self,
        alloc: Global,
        buf: &mut Vec<u8>,
        records: &mut [Record],
    ) -> Result<(), NoMemory> {
        push_signed(alloc, self, buf, records)
    }

    fn wildcard_closest_encloser(
        &self,
        _alloc: Global,
        rr: &Record,
    ) -> Result<Option<Name>, NoMemory> {
        encloser(self.labels, rr.owner())
    }

    fn verify_signed_data<V: Verifier>(
        &self,
        dnskey: &Dnskey<'_>,
        octets: &[u8],
    ) -> Result<(), AlgorithmError> {
        verify::<V>(self, dnskey, octets)
    }
}
