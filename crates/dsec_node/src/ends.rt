//! Between which ends each setting lies, and its default. The numbers are this project's profile.

ghost use Rattle.std.specs.Prelude.{◌≡◌};

use dsec_number::DefMinMax;

pub(crate) fn max_node_cache() -> DefMinMax<u64>
    ensures { result ≡ record { default = 100; min = 1; max = 1000000000 } }
{
    DefMinMax::new(100, 1, 1_000_000_000)
}

pub(crate) fn max_nsec3_cache() -> DefMinMax<u64>
    ensures { result ≡ record { default = 100; min = 1; max = 1000000000 } }
{
    DefMinMax::new(100, 1, 1_000_000_000)
}

pub(crate) fn max_isig_cache() -> DefMinMax<u64>
    ensures { result ≡ record { default = 1000; min = 1; max = 1000000000 } }
{
    DefMinMax::new(1000, 1, 1_000_000_000)
}

pub(crate) fn max_usig_cache() -> DefMinMax<u64>
    ensures { result ≡ record { default = 1000; min = 1; max = 1000000000 } }
{
    DefMinMax::new(1000, 1, 1_000_000_000)
}

pub(crate) fn max_validity() -> DefMinMax<u64>
    ensures { result ≡ record { default = 604800; min = 60; max = 6048000 } }
{
    DefMinMax::new(604800, 60, 6_048_000)
}

pub(crate) fn max_bogus_validity() -> DefMinMax<u64>
    ensures { result ≡ record { default = 30; min = 1; max = 300 } }
{
    DefMinMax::new(30, 1, 300)
}

pub(crate) fn max_bad_signatures() -> DefMinMax<u8>
    ensures { result ≡ record { default = 1; min = 1; max = 8 } }
{
    DefMinMax::new(1, 1, 8)
}

pub(crate) fn nsec3_iter_insecure() -> DefMinMax<u16>
    ensures { result ≡ record { default = 100; min = 0; max = 500 } }
{
    DefMinMax::new(100, 0, 500)
}

pub(crate) fn nsec3_iter_bogus() -> DefMinMax<u16>
    ensures { result ≡ record { default = 500; min = 0; max = 500 } }
{
    DefMinMax::new(500, 0, 500)
}

pub(crate) fn max_cname_dname() -> DefMinMax<u8>
    ensures { result ≡ record { default = 11; min = 0; max = 100 } }
{
    DefMinMax::new(11, 0, 100)
}

pub(crate) fn max_ds_records() -> DefMinMax<u8>
    ensures { result ≡ record { default = 20; min = 1; max = 100 } }
{
    DefMinMax::new(20, 1, 100)
}

pub(crate) fn max_dnskeys_per_ds() -> DefMinMax<u8>
    ensures { result ≡ record { default = 4; min = 1; max = 100 } }
{
    DefMinMax::new(4, 1, 100)
}

pub(crate) fn max_nsec3_hashes() -> DefMinMax<u8>
    ensures { result ≡ record { default = 60; min = 1; max = 100 } }
{
    DefMinMax::new(60, 1, 100)
}
