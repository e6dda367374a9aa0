//! How a zone denies what it hasn't (RFC 4035 2.3, RFC 5155 7.1).

use crate::hash::Nsec3Salt;

/// How names are hashed, and whether insecure delegations are left out.
#[derive(Drop)]
pub struct Nsec3Config {
    /// How often a hash is taken again (RFC 5155 3.1.3).
    pub iterations: u16,
    /// What is added to each name (RFC 5155 3.1.5).
    pub salt: Nsec3Salt,
    /// Whether delegations without DS are left out (RFC 5155 6).
    pub opt_out: bool,
}

impl Default for Nsec3Config {
    ghost use Rattle.std.specs.Prelude.{◌≡◌, [], false};

    ghost is_default = { λ config. config ≡ record { iterations = 0; salt = []; opt_out = false } };

    // No iterations and no salt, as RFC 9276 3.1 asks of zones.
    fn default() -> Nsec3Config {
        Nsec3Config {
            iterations: 0,
            salt: Nsec3Salt::empty(),
            opt_out: false,
        }
    }
}

/// Which chain of denial a zone gets.
#[derive(Drop)]
pub enum DenialConfig {
    /// None: the records of one are there.
    AlreadyPresent,
    /// NSEC records.
    Nsec,
    /// NSEC3 records.
    Nsec3(Nsec3Config),
}

impl Default for DenialConfig {
    ghost use Rattle.std.specs.Prelude.{◌≡◌};
    ghost use Rattle.dsec_sorted.specs.declared.config.DenialConfig.TheVariants as variants;

    ghost is_default = { λ config. config ≡ variants.Nsec };

    fn default() -> DenialConfig {
        DenialConfig::Nsec
    }
}
