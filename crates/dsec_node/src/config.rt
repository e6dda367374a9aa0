//! How much validation does at most, how much it keeps, and for how long.

ghost use Rattle.std.specs.Prelude.{◌≡◌};
ghost use Rattle.dsec_node.specs.Configs.{default_settings};
ghost use Rattle.dsec_node.specs.KeptBounds.{bounds_of, bounds_view};

mod setters;

use crate::bounds::Bounds;
use crate::ends;
use dsec_group::Limits;
use std::alloc::AllocError;
use std::marker::Model;

/// How much validation does at most, how much it keeps, and for how long. A setter keeps a value between the setting's two
/// ends: one that lies outside is taken for the end that is nearest.
#[derive(Copy, Debug)]
pub struct Config {
    max_node_cache: u64,
    max_nsec3_cache: u64,
    max_isig_cache: u64,
    max_usig_cache: u64,
    max_validity: u64,
    max_bogus_validity: u64,
    max_bad_signatures: u8,
    nsec3_iter_insecure: u16,
    nsec3_iter_bogus: u16,
    max_cname_dname: u8,
    max_ds_records: u8,
    max_dnskeys_per_ds: u8,
    max_nsec3_hashes: u8,
}

impl Model for Config {
    ghost use Rattle.dsec_node.specs.Configs.{Settings};

    ghost Value = { Settings };

    ghost view = { λ it. record { max_node_cache = it.max_node_cache; max_nsec3_cache = it.max_nsec3_cache; max_isig_cache = it.max_isig_cache; max_usig_cache = it.max_usig_cache; max_validity = it.max_validity; max_bogus_validity = it.max_bogus_validity; max_bad_signatures = it.max_bad_signatures; nsec3_iter_insecure = it.nsec3_iter_insecure; nsec3_iter_bogus = it.nsec3_iter_bogus; max_cname_dname = it.max_cname_dname; max_ds_records = it.max_ds_records; max_dnskeys_per_ds = it.max_dnskeys_per_ds; max_nsec3_hashes = it.max_nsec3_hashes } };

    ghost inverse = { λ it. record { max_node_cache = it.max_node_cache; max_nsec3_cache = it.max_nsec3_cache; max_isig_cache = it.max_isig_cache; max_usig_cache = it.max_usig_cache; max_validity = it.max_validity; max_bogus_validity = it.max_bogus_validity; max_bad_signatures = it.max_bad_signatures; nsec3_iter_insecure = it.nsec3_iter_insecure; nsec3_iter_bogus = it.nsec3_iter_bogus; max_cname_dname = it.max_cname_dname; max_ds_records = it.max_ds_records; max_dnskeys_per_ds = it.max_dnskeys_per_ds; max_nsec3_hashes = it.max_nsec3_hashes } };
}

impl Clone for Config {
    ghost use Rattle.std.specs.Prelude.{◌≡◌, ⊤};

    ghost is_clone = { λ it clone. clone ≡ it };

    ghost is_infallible = { λ _. ⊤ };

    fn clone(&self) -> Result<Self, AllocError> {
        Ok(*self)
    }
}

impl Default for Config {
    fn default() -> Config
        ensures { result ≡ default_settings }
    {
        Config::new()
    }
}

impl Config {
    /// The settings that nobody has changed.
    pub fn new() -> Config
        ensures { result ≡ default_settings }
    {
        Config {
            max_node_cache: ends::max_node_cache().default(),
            max_nsec3_cache: ends::max_nsec3_cache().default(),
            max_isig_cache: ends::max_isig_cache().default(),
            max_usig_cache: ends::max_usig_cache().default(),
            max_validity: ends::max_validity().default(),
            max_bogus_validity: ends::max_bogus_validity().default(),
            max_bad_signatures: ends::max_bad_signatures().default(),
            nsec3_iter_insecure: ends::nsec3_iter_insecure().default(),
            nsec3_iter_bogus: ends::nsec3_iter_bogus().default(),
            max_cname_dname: ends::max_cname_dname().default(),
            max_ds_records: ends::max_ds_records().default(),
            max_dnskeys_per_ds: ends::max_dnskeys_per_ds().default(),
            max_nsec3_hashes: ends::max_nsec3_hashes().default(),
        }
    }

    /// The bounds on what a group's records can make validation do.
    pub fn limits(&self) -> Limits
        ensures { result ≡ record { max_bad_signatures = self.now.max_bad_signatures; nsec3_iter_insecure = self.now.nsec3_iter_insecure; nsec3_iter_bogus = self.now.nsec3_iter_bogus; max_nsec3_hashes = self.now.max_nsec3_hashes; max_cname_dname = self.now.max_cname_dname } }
    {
        Limits {
            max_bad_signatures: self.max_bad_signatures,
            nsec3_iter_insecure: self.nsec3_iter_insecure,
            nsec3_iter_bogus: self.nsec3_iter_bogus,
            max_nsec3_hashes: self.max_nsec3_hashes,
            max_cname_dname: self.max_cname_dname,
        }
    }

    /// The bounds on what is tried for a node, and on how long it is kept.
    pub fn bounds(&self) -> Bounds
        ensures { bounds_view result ≡ bounds_of self.now }
    {
        Bounds {
            room: u16::from(self.max_bad_signatures) + 1,
            max_validity: self.max_validity,
            max_bogus_validity: self.max_bogus_validity,
            max_ds_records: self.max_ds_records,
            max_keys_for_ds: self.max_dnskeys_per_ds,
            iterations_insecure: self.nsec3_iter_insecure,
            iterations_bogus: self.nsec3_iter_bogus,
            most_hashes: self.max_nsec3_hashes,
        }
    }

    /// How many nodes a cache of nodes is to hold, for whoever makes one; `OwnedCaches` hold any number.
    pub fn max_node_cache(&self) -> u64
        ensures { result ≡ self.now.max_node_cache }
    {
        self.max_node_cache
    }

    /// How many iterated hashes are to be kept, for whoever makes a memo (RFC 5155 5).
    pub fn max_nsec3_cache(&self) -> u64
        ensures { result ≡ self.now.max_nsec3_cache }
    {
        self.max_nsec3_cache
    }

    /// How many answers are to be kept for signatures of DS and DNSKEY sets, for whoever makes a memo.
    pub fn max_isig_cache(&self) -> u64
        ensures { result ≡ self.now.max_isig_cache }
    {
        self.max_isig_cache
    }

    /// How many answers are to be kept for signatures of all other sets, for whoever makes a memo.
    pub fn max_usig_cache(&self) -> u64
        ensures { result ≡ self.now.max_usig_cache }
    {
        self.max_usig_cache
    }

    /// For how many seconds a node is valid at most.
    pub fn max_validity(&self) -> u64
        ensures { result ≡ self.now.max_validity }
    {
        self.max_validity
    }

    /// For how many seconds a bogus node is valid.
    pub fn max_bogus_validity(&self) -> u64
        ensures { result ≡ self.now.max_bogus_validity }
    {
        self.max_bogus_validity
    }

    /// How many signatures of a set may be bad under keys that they name, and another be tried after them.
    pub fn max_bad_signatures(&self) -> u8
        ensures { result ≡ self.now.max_bad_signatures }
    {
        self.max_bad_signatures
    }

    /// More NSEC3 iterations than these prove nothing, and what they are to prove is insecure (RFC 9276 3.2).
    pub fn nsec3_iter_insecure(&self) -> u16
        ensures { result ≡ self.now.nsec3_iter_insecure }
    {
        self.nsec3_iter_insecure
    }

    /// More NSEC3 iterations than these are bogus (RFC 9276 3.2).
    pub fn nsec3_iter_bogus(&self) -> u16
        ensures { result ≡ self.now.nsec3_iter_bogus }
    {
        self.nsec3_iter_bogus
    }

    /// How many CNAME and DNAME records are followed.
    pub fn max_cname_dname(&self) -> u8
        ensures { result ≡ self.now.max_cname_dname }
    {
        self.max_cname_dname
    }

    /// How many DS records of a set are tried.
    pub fn max_ds_records(&self) -> u8
        ensures { result ≡ self.now.max_ds_records }
    {
        self.max_ds_records
    }

    /// How many keys with the algorithm and tag of a DS record are tried with it.
    pub fn max_dnskeys_per_ds(&self) -> u8
        ensures { result ≡ self.now.max_dnskeys_per_ds }
    {
        self.max_dnskeys_per_ds
    }

    /// How many iterated hashes are made at most to find one closest encloser.
    pub fn max_nsec3_hashes(&self) -> u8
        ensures { result ≡ self.now.max_nsec3_hashes }
    {
        self.max_nsec3_hashes
    }
}
