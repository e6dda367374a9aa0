//! What sets a validator's settings: each its own, and no other.

ghost use Rattle.std.specs.Prelude.{◌≡◌};
ghost use Rattle.std.specs.Ordering.{nat_cmp};
ghost use Rattle.dsec_number.specs.Limits.{IsLimited};

use crate::config::Config;
use crate::ends;

impl Config {
    /// How many nodes a cache of nodes is to hold, for whoever makes one: from 1 to 1,000,000,000. `OwnedCaches` hold any number.
    pub fn set_max_node_cache(&mut self, value: u64)
        ensures value { IsLimited nat_cmp 1 1000000000 value self.new.max_node_cache }
        ensures others { self.new ≡ record self.old { max_node_cache = self.new.max_node_cache } }
    {
        self.max_node_cache = ends::max_node_cache().limit(value);
    }

    /// How many iterated hashes are to be kept, for whoever makes a memo (RFC 5155 5): from 1 to 1,000,000,000.
    pub fn set_max_nsec3_cache(&mut self, value: u64)
        ensures value { IsLimited nat_cmp 1 1000000000 value self.new.max_nsec3_cache }
        ensures others { self.new ≡ record self.old { max_nsec3_cache = self.new.max_nsec3_cache } }
    {
        self.max_nsec3_cache = ends::max_nsec3_cache().limit(value);
    }

    /// How many answers are to be kept for signatures of DS and DNSKEY sets, for whoever makes a memo: from 1 to 1,000,000,000.
    pub fn set_max_isig_cache(&mut self, value: u64)
        ensures value { IsLimited nat_cmp 1 1000000000 value self.new.max_isig_cache }
        ensures others { self.new ≡ record self.old { max_isig_cache = self.new.max_isig_cache } }
    {
        self.max_isig_cache = ends::max_isig_cache().limit(value);
    }

    /// How many answers are to be kept for signatures of all other sets, for whoever makes a memo: from 1 to 1,000,000,000.
    pub fn set_max_usig_cache(&mut self, value: u64)
        ensures value { IsLimited nat_cmp 1 1000000000 value self.new.max_usig_cache }
        ensures others { self.new ≡ record self.old { max_usig_cache = self.new.max_usig_cache } }
    {
        self.max_usig_cache = ends::max_usig_cache().limit(value);
    }

    /// For how many seconds a node is valid at most: from 60 to 6,048,000.
    pub fn set_max_validity(&mut self, value: u64)
        ensures value { IsLimited nat_cmp 60 6048000 value self.new.max_validity }
        ensures others { self.new ≡ record self.old { max_validity = self.new.max_validity } }
    {
        self.max_validity = ends::max_validity().limit(value);
    }

    /// For how many seconds a bogus node is valid: from 1 to 300.
    pub fn set_max_bogus_validity(&mut self, value: u64)
        ensures value { IsLimited nat_cmp 1 300 value self.new.max_bogus_validity }
        ensures others { self.new ≡ record self.old { max_bogus_validity = self.new.max_bogus_validity } }
    {
        self.max_bogus_validity = ends::max_bogus_validity().limit(value);
    }

    /// How many signatures of a set may be bad under keys that they name, and another be tried after them: from 1 to 8.
    pub fn set_bad_signatures(&mut self, value: u8)
        ensures value { IsLimited nat_cmp 1 8 value self.new.max_bad_signatures }
        ensures others { self.new ≡ record self.old { max_bad_signatures = self.new.max_bad_signatures } }
    {
        self.max_bad_signatures = ends::max_bad_signatures().limit(value);
    }

    /// More NSEC3 iterations than these prove nothing, and what they are to prove is insecure (RFC 9276 3.2): from 0 to 500.
    pub fn set_nsec3_iter_insecure(&mut self, value: u16)
        ensures value { IsLimited nat_cmp 0 500 value self.new.nsec3_iter_insecure }
        ensures others { self.new ≡ record self.old { nsec3_iter_insecure = self.new.nsec3_iter_insecure } }
    {
        self.nsec3_iter_insecure = ends::nsec3_iter_insecure().limit(value);
    }

    /// More NSEC3 iterations than these are bogus (RFC 9276 3.2): from 0 to 500.
    pub fn set_nsec3_iter_bogus(&mut self, value: u16)
        ensures value { IsLimited nat_cmp 0 500 value self.new.nsec3_iter_bogus }
        ensures others { self.new ≡ record self.old { nsec3_iter_bogus = self.new.nsec3_iter_bogus } }
    {
        self.nsec3_iter_bogus = ends::nsec3_iter_bogus().limit(value);
    }

    /// How many CNAME and DNAME records are followed: from 0 to 100.
    pub fn set_max_cname_dname(&mut self, value: u8)
        ensures value { IsLimited nat_cmp 0 100 value self.new.max_cname_dname }
        ensures others { self.new ≡ record self.old { max_cname_dname = self.new.max_cname_dname } }
    {
        self.max_cname_dname = ends::max_cname_dname().limit(value);
    }

    /// How many DS records of a set are tried: from 1 to 100.
    pub fn set_max_ds_records(&mut self, value: u8)
        ensures value { IsLimited nat_cmp 1 100 value self.new.max_ds_records }
        ensures others { self.new ≡ record self.old { max_ds_records = self.new.max_ds_records } }
    {
        self.max_ds_records = ends::max_ds_records().limit(value);
    }

    /// How many keys with the algorithm and tag of a DS record are tried with it: from 1 to 100.
    pub fn set_max_dnskeys_per_ds(&mut self, value: u8)
        ensures value { IsLimited nat_cmp 1 100 value self.new.max_dnskeys_per_ds }
        ensures others { self.new ≡ record self.old { max_dnskeys_per_ds = self.new.max_dnskeys_per_ds } }
    {
        self.max_dnskeys_per_ds = ends::max_dnskeys_per_ds().limit(value);
    }

    /// How many iterated hashes are made at most to find one closest encloser: from 1 to 100.
    pub fn set_max_nsec3_hashes(&mut self, value: u8)
        ensures value { IsLimited nat_cmp 1 100 value self.new.max_nsec3_hashes }
        ensures others { self.new ≡ record self.old { max_nsec3_hashes = self.new.max_nsec3_hashes } }
    {
        self.max_nsec3_hashes = ends::max_nsec3_hashes().limit(value);
    }
}
