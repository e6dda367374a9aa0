//! A record's data with their type.

ghost use Rattle.std.specs.Prelude.{◌≡◌, ◌↔◌, ◌++◌, IsTrue, IsSome, OnOk, OnErr, Some};
ghost use Rattle.std.specs.Cmp.Lexicographic.{slice_cmp};
ghost use Rattle.std.specs.Option.{option_map};
ghost use Rattle.std.specs.Ordering.{nat_cmp};
ghost use Rattle.dsec_spec.specs.Numbers.{CNAME, SOA, DNAME, OPT, DS, RRSIG, NSEC, DNSKEY, NSEC3, NSEC3PARAM};
ghost use Rattle.dsec_spec.specs.RecordData.{IsReadable, canonical_data};
ghost use Rattle.dsec_wire.specs.DataViews.{cname_in, cname_view, dname_in, dname_view, soa_in, soa_view, ds_in, ds_view, nsec_in, nsec_view, nsec3_in, nsec3_view, nsec3param_in, hashing_view, opt_in, opt_view};
ghost use Rattle.dsec_wire.specs.SignedOctets.{octets_left};
ghost use Rattle.dsec_wire.specs.Views.{dnskey_in, key_view, rrsig_in, rrsig_view};

use crate::canonical::push_canonical;
use crate::dnskey::Dnskey;
use crate::ds::{Ds, read_ds};
use crate::edns::Opt;
use crate::layout::layout;
use crate::nsec::{Nsec, read_nsec};
use crate::nsec3::{Nsec3, Nsec3param, read_nsec3, read_nsec3param};
use crate::part::takes_all;
use crate::rrsig::{Rrsig, read_rrsig};
use crate::signed_octets::{SignedOctets, compare};
use crate::soa::{Soa, read_soa};
use crate::target::{Cname, Dname, read_cname, read_dname};
use dsec_name::{NoMemory, Octets};
use dsec_number::Rtype;
use std::cmp::Ordering;
use std::marker::Model;

/// The octets of a record's data at most (RFC 1035 3.2.1).
const MAX_DATA: usize = 65535;

/// The data of a record: octets that are what the type says, with names uncompressed and their letters as
/// they came (RFC 1035 3.3, RFC 4034, RFC 5155). Data of a type that isn't known are any octets, at most
/// 65535 (RFC 3597 3).
#[derive(Clone, Drop)]
pub struct Data {
    rtype: Rtype,
    octets: Octets,
}

impl Model for Data {
    ghost use Rattle.dsec_spec.specs.RecordData.{IsReadable};
    ghost use Rattle.dsec_wire.specs.TypedData.{TypedData};

    ghost Value = { TypedData };

    ghost view = { λ it. record { rtype = it.rtype; octets = it.octets } };

    ghost invariant = { λ it. IsReadable it.rtype it.octets };
}

impl Data {
    /// The data of these octets, which `is_readable` finds readable.
    pub fn new(rtype: Rtype, octets: Octets) -> Data
        requires { IsReadable rtype octets }
        ensures { result ≡ record { rtype = rtype; octets = octets } }
    {
        Data { rtype, octets }
    }

    /// Whether a record of the type may have these octets as its data.
    pub fn is_readable(rtype: Rtype, octets: &[u8]) -> bool
        ensures { IsTrue result ↔ IsReadable rtype octets.now }
    {
        octets.len() <= MAX_DATA && takes_all(layout(rtype), octets)
    }

    /// The type that the octets are read by.
    pub fn rtype(&self) -> Rtype
        ensures { result ≡ self.now.rtype }
    {
        self.rtype
    }

    /// The octets, names uncompressed and letters as they came.
    pub fn octets(&self) -> &Octets
        ensures value { result.now ≡ self.now.octets }
        ensures readable { IsReadable self.now.rtype self.now.octets }
    {
        &self.octets
    }

    /// The key, where the type is DNSKEY.
    pub fn dnskey(&self) -> Option<Dnskey<'_>>
        ensures value { option_map key_view result ≡ dnskey_in self.now }
        ensures found { IsSome result ↔ (self.now.rtype ≡ DNSKEY) }
    {
        if self.rtype != Rtype::DNSKEY {
            return None;
        }
        Dnskey::read(self.octets.as_slice())
    }

    /// The signature, where the type is RRSIG.
    pub fn rrsig(&self) -> Option<Rrsig<'_>>
        ensures value { option_map rrsig_view result ≡ rrsig_in self.now }
        ensures found { IsSome result ↔ (self.now.rtype ≡ RRSIG) }
    {
        if self.rtype != Rtype::RRSIG {
            return None;
        }
        read_rrsig(self.octets.as_slice())
    }

    /// The start of a zone, where the type is SOA.
    pub fn soa(&self) -> Option<Soa<'_>>
        ensures value { option_map soa_view result ≡ soa_in self.now }
        ensures found { IsSome result ↔ (self.now.rtype ≡ SOA) }
    {
        if self.rtype != Rtype::SOA {
            return None;
        }
        read_soa(self.octets.as_slice())
    }

    /// The name that the owner is an alias of, where the type is CNAME.
    pub fn cname(&self) -> Option<Cname<'_>>
        ensures value { option_map cname_view result ≡ cname_in self.now }
        ensures found { IsSome result ↔ (self.now.rtype ≡ CNAME) }
    {
        if self.rtype != Rtype::CNAME {
            return None;
        }
        read_cname(self.octets.as_slice())
    }

    /// The name that stands for the owner, where the type is DNAME.
    pub fn dname(&self) -> Option<Dname<'_>>
        ensures value { option_map dname_view result ≡ dname_in self.now }
        ensures found { IsSome result ↔ (self.now.rtype ≡ DNAME) }
    {
        if self.rtype != Rtype::DNAME {
            return None;
        }
        read_dname(self.octets.as_slice())
    }

    /// The digest of a key, where the type is DS.
    pub fn ds(&self) -> Option<Ds<'_>>
        ensures value { option_map ds_view result ≡ ds_in self.now }
        ensures found { IsSome result ↔ (self.now.rtype ≡ DS) }
    {
        if self.rtype != Rtype::DS {
            return None;
        }
        read_ds(self.octets.as_slice())
    }

    /// The gap after a name, where the type is NSEC.
    pub fn nsec(&self) -> Option<Nsec<'_>>
        ensures value { option_map nsec_view result ≡ nsec_in self.now }
        ensures found { IsSome result ↔ (self.now.rtype ≡ NSEC) }
    {
        if self.rtype != Rtype::NSEC {
            return None;
        }
        read_nsec(self.octets.as_slice())
    }

    /// The gap after a hash, where the type is NSEC3.
    pub fn nsec3(&self) -> Option<Nsec3<'_>>
        ensures value { option_map nsec3_view result ≡ nsec3_in self.now }
        ensures found { IsSome result ↔ (self.now.rtype ≡ NSEC3) }
    {
        if self.rtype != Rtype::NSEC3 {
            return None;
        }
        read_nsec3(self.octets.as_slice())
    }

    /// How hashes are made, where the type is NSEC3PARAM.
    pub fn nsec3param(&self) -> Option<Nsec3param<'_>>
        ensures value { option_map hashing_view result ≡ nsec3param_in self.now }
        ensures found { IsSome result ↔ (self.now.rtype ≡ NSEC3PARAM) }
    {
        if self.rtype != Rtype::NSEC3PARAM {
            return None;
        }
        read_nsec3param(self.octets.as_slice())
    }

    /// The options, where the type is OPT.
    pub fn opt(&self) -> Option<Opt<'_>>
        ensures value { option_map opt_view result ≡ opt_in self.now }
        ensures found { IsSome result ↔ (self.now.rtype ≡ OPT) }
    {
        if self.rtype != Rtype::OPT {
            return None;
        }
        let options = self.octets.as_slice();
        Some(Opt { options })
    }

    /// Adds the data as signatures take them (RFC 4034 6.2).
    pub fn compose_canonical(&self, out: &mut Vec<u8>) -> Result<(), NoMemory>
        ensures ok { OnOk result (out.new.items ≡ out.old.items ++ canonical_data self.now.rtype self.now.octets) }
        ensures err { OnErr result (out.new.items ≡ out.old.items) }
    {
        let octets = self.octets.as_slice();
        out.reserve(octets.len())?;
        push_canonical(out, layout(self.rtype), octets);
        Ok(())
    }

    /// The order of data in a set of records: as strings of the octets that signatures take (RFC 4034 6.3).
    pub fn canonical_cmp(&self, other: &Self) -> Ordering
        ensures { result ≡ slice_cmp nat_cmp (canonical_data self.now.rtype self.now.octets) (canonical_data other.now.rtype other.now.octets) }
    {
        compare(&self.signed_octets(), &other.signed_octets())
    }

    /// The data as signatures take them.
    fn signed_octets(&self) -> SignedOctets<'_>
        ensures { octets_left result ≡ Some (canonical_data self.now.rtype self.now.octets) }
    {
        SignedOctets::new(layout(self.rtype), self.octets.as_slice())
    }
}
