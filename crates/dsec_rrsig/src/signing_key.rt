//! Keys that sign for a zone.

ghost use Rattle.std.specs.Prelude.{◌≡◌, ◌↔◌, ◌%◌, ◌/◌, IfOk, IsTrue};
ghost use Rattle.dsec_wire.specs.Views.{key_view};

use crate::sign_raw::SignRaw;
use dsec_name::{Name, NoMemory};
use dsec_number::SecurityAlgorithm;
use dsec_wire::Dnskey;

/// The flag of a key for zone data (RFC 4034 2.1.1).
const ZONE_KEY: u16 = 0x0100;

/// The flag of a key that is revoked (RFC 5011 7).
const REVOKE: u16 = 0x0080;

/// The flag of a secure entry point (RFC 4034 2.1.1).
const SECURE_ENTRY_POINT: u16 = 0x0001;

/// A key with the name that its signatures give as their signer, and flags as DNSKEY records have them.
#[derive(Drop)]
pub struct SigningKey<I> {
    pub(crate) owner: Name,
    flags: u16,
    pub(crate) inner: I,
}

impl<I> SigningKey<I> {
    /// A key of these parts.
    pub fn new(owner: Name, flags: u16, inner: I) -> Self
        ensures owner { result.owner ≡ owner }
        ensures flags { result.flags ≡ flags }
        ensures inner { result.inner ≡ inner }
    {
        SigningKey {
            owner,
            flags,
            inner,
        }
    }

    /// The name of the signer: the apex of the zone that the key signs (RFC 4034 3.1.7).
    pub fn owner(&self) -> &Name
        ensures { result.now ≡ self.now.owner }
    {
        &self.owner
    }

    /// The flags.
    pub fn flags(&self) -> u16
        ensures { result ≡ self.now.flags }
    {
        self.flags
    }

    /// What signs.
    pub fn raw_secret_key(&self) -> &I
        ensures { result.now ≡ self.now.inner }
    {
        &self.inner
    }

    /// Whether the key is one for zone data, by its flags (RFC 4034 2.1.1).
    pub fn is_zone_signing_key(&self) -> bool
        ensures { IsTrue result ↔ (self.now.flags / 256 % 2 ≡ 1) }
    {
        self.flags / ZONE_KEY % 2 == 1
    }

    /// Whether the key is revoked, by its flags (RFC 5011 2.1).
    pub fn is_revoked(&self) -> bool
        ensures { IsTrue result ↔ (self.now.flags / 128 % 2 ≡ 1) }
    {
        self.flags / REVOKE % 2 == 1
    }

    /// Whether the key is a secure entry point, by its flags (RFC 4034 2.1.1).
    pub fn is_secure_entry_point(&self) -> bool
        ensures { IsTrue result ↔ (self.now.flags % 2 ≡ 1) }
    {
        self.flags / SECURE_ENTRY_POINT % 2 == 1
    }
}

impl<I: SignRaw> SigningKey<I> {
    /// The algorithm of the key's signatures.
    pub fn algorithm(&self) -> SecurityAlgorithm
        ensures { result ≡ (I.key self.now.inner).algorithm }
    {
        self.inner.algorithm()
    }

    /// The data of the DNSKEY record by which the key's signatures are checked, as what signs gives them.
    pub fn dnskey(&self) -> Result<Dnskey<'_>, NoMemory>
        ensures { IfOk result (λ dnskey. key_view dnskey ≡ I.key self.now.inner) }
    {
        self.inner.dnskey()
    }
}
