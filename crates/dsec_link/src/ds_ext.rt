//! Whether a DS record speaks of a key (RFC 4034 5, RFC 4035 5.2).

ghost use Rattle.std.specs.Prelude.{◌≡◌, ◌↔◌, IsTrue};
ghost use Rattle.dsec_spec.specs.DelegationSigner.{Matches, has_digest, names, speaks_of};
ghost use Rattle.dsec_spec.specs.Records as records;
ghost use Rattle.dsec_wire.specs.DataViews.{ds_view};
ghost use Rattle.dsec_wire.specs.Views.{key_view};

use crate::key_digest::key_digest;
use dsec_name::Name;
use dsec_wire::{Dnskey, Ds};

/// What a DS record is used for.
pub trait DsExt {
    /// What the DS record says.
    ghost says: { Self → records.Ds };

    /// Whether the record speaks of the owner's key: by the key's algorithm, its tag, and its digest under SHA-1,
    /// SHA-256 or SHA-384 (RFC 4034 5.1). The digest is taken where algorithm and tag are the key's.
    fn matches(&self, owner: &Name, key: &Dnskey<'_>) -> bool
        ensures { IsTrue result ↔ Matches (says self.now) owner.now (key_view key.now) };
}

impl<'a> DsExt for Ds<'a> {
    ghost says = { ds_view };

    #[tactic(auto, using(dsec_spec::proofs::DelegationLaws::speaks_decides))]
    fn matches(&self, owner: &Name, key: &Dnskey<'_>) -> bool {
        names_key(self, key) && has_digest_of(self, owner, key)
    }
}

/// Whether the record has the algorithm and the tag of the key (RFC 4034 5.1.1, 5.1.2).
pub(crate) fn names_key(ds: &Ds<'_>, key: &Dnskey<'_>) -> bool
    ensures { result ≡ names (ds_view ds.now) (key_view key.now) }
{
    ds.algorithm == key.algorithm && ds.key_tag == key.key_tag()
}

/// Whether the record's digest is that of the owner's key (RFC 4034 5.1.4).
pub(crate) fn has_digest_of(ds: &Ds<'_>, owner: &Name, key: &Dnskey<'_>) -> bool
    ensures { result ≡ has_digest (ds_view ds.now) owner.now (key_view key.now) }
{
    match key_digest(key, owner, ds.digest_type) {
        Ok(digest) => ds.digest == digest.as_ref(),
        Err(_) => false,
    }
}
