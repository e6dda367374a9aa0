//! A DS set that a zone has signed, for a name whose DNSKEY set is to be asked for.

ghost use Rattle.std.specs.Prelude.{◌≡◌};
ghost use Rattle.dsec_spec.specs.Names.{place};

use dsec_link::Link;
use dsec_name::Name;
use std::marker::Model;

/// A DS set that a zone has signed.
#[derive(Drop)]
pub struct Pending {
    name: Name,
    link: Link,
    valid_for: u64,
}

impl Model for Pending {
    ghost use Rattle.dsec_nodes.specs.ByDs as nodes;
    ghost use Rattle.dsec_spec.specs.Names.{place};

    ghost Value = { nodes.Pending };

    ghost view = { λ it. record { name = place it.name; link = it.link; valid_for = it.valid_for } };
}

impl Pending {
    /// A DS set's link, for a name, and for how long it may be kept.
    pub fn new(name: Name, link: Link, valid_for: u64) -> Pending
        ensures { result ≡ record { name = place name; link = link; valid_for = valid_for } }
    {
        Pending {
            name,
            link,
            valid_for,
        }
    }

    /// The name.
    pub fn name(&self) -> &Name
        ensures { place result.now ≡ self.now.name }
    {
        &self.name
    }

    /// The DS set's link.
    pub fn link(&self) -> &Link
        ensures { result.now ≡ self.now.link }
    {
        &self.link
    }

    /// For how long it may be kept.
    pub fn valid_for(&self) -> u64
        ensures { result ≡ self.now.valid_for }
    {
        self.valid_for
    }
}
