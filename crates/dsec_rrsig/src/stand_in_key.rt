//! The key of the stand-in for signatures.

ghost use Rattle.std.specs.Prelude.{◌≡◌, ◌↔◌, IfOk, IsErrOf, IsOk, None};
ghost use Rattle.dsec_spec.specs.Outside.{last_count};
ghost use Rattle.dsec_rrsig.specs.Keys.{HasAlgorithm, HasProtocol, IsShort, stand_in_signs};
ghost use Rattle.dsec_wire.specs.Views.{key_view};

use crate::error::SignError;
use crate::sign_raw::SignRaw;
use arrayvec::ArrayVec;
use dsec_crypto::{DigestBuilder, DigestType, FromDnskeyError};
use dsec_link::supported_algorithm;
use dsec_name::NoMemory;
use dsec_number::SecurityAlgorithm;
use dsec_wire::Dnskey;
use std::alloc::Global;
use std::marker::Model;

/// The octets that a key has at most.
const MAX_KEY: usize = 64;

/// Insecure, for the program and for tests: the key of the signatures that `dsec_crypto::StandIn` accepts,
/// which anybody can make. It has no private part. A clause sees it as the key that its DNSKEY record says.
#[derive(Drop)]
pub struct StandInKey {
    flags: u16,
    protocol: u8,
    algorithm: SecurityAlgorithm,
    public_key: ArrayVec<u8, MAX_KEY>,
}

impl Model for StandInKey {
    ghost use Rattle.dsec_spec.specs.Records as records;

    ghost Value = { records.Key };

    ghost view = { λ it. record { flags = it.flags; protocol = it.protocol; algorithm = it.algorithm; public_key = it.public_key.items } };
}

impl StandInKey {
    /// The key of a DNSKEY record's data, copied; no memory is taken. Of the refusals the first that is due
    /// comes: protocol, algorithm, then the key's length.
    pub fn from_dnskey(dnskey: &Dnskey<'_>) -> Result<StandInKey, FromDnskeyError>
        ensures made { IfOk result (λ key. key ≡ key_view dnskey.now) }
        ensures protocol { IsErrOf result FromDnskeyError.UnsupportedProtocol ↔ (HasProtocol (key_view dnskey.now) → ⊥) }
        ensures algorithm { IsErrOf result FromDnskeyError.UnsupportedAlgorithm
            ↔ HasProtocol (key_view dnskey.now) × (HasAlgorithm (key_view dnskey.now) → ⊥) }
        ensures key { IsErrOf result FromDnskeyError.InvalidKey
            ↔ HasProtocol (key_view dnskey.now) × HasAlgorithm (key_view dnskey.now) × (IsShort (key_view dnskey.now) → ⊥) }
    {
        if dnskey.protocol != 3 {
            return Err(FromDnskeyError::UnsupportedProtocol);
        }
        if !supported_algorithm(dnskey.algorithm) {
            return Err(FromDnskeyError::UnsupportedAlgorithm);
        }
        if dnskey.public_key.is_empty() {
            return Err(FromDnskeyError::InvalidKey);
        }
        let Ok(public_key) = ArrayVec::<u8, MAX_KEY>::try_from(dnskey.public_key) else {
            return Err(FromDnskeyError::InvalidKey);
        };
        Ok(StandInKey {
            flags: dnskey.flags,
            protocol: dnskey.protocol,
            algorithm: dnskey.algorithm,
            public_key,
        })
    }
}

/// It never fails: its count of faults stays at 0. How often it is asked isn't counted, and it doesn't tell what it was given.
impl SignRaw for StandInKey {
    ghost signs = { stand_in_signs };

    ghost key = { λ it. it };

    ghost faults = { λ _. 0 };

    ghost asked = { λ _. last_count };

    ghost given = { λ _. None };

    fn algorithm(&self) -> SecurityAlgorithm {
        self.algorithm
    }

    fn dnskey(&self) -> Result<Dnskey<'_>, NoMemory>
        ensures key { IfOk result (λ dnskey. key_view dnskey ≡ self.now) }
        ensures ok { IsOk result }
    {
        Ok(Dnskey {
            flags: self.flags,
            protocol: self.protocol,
            algorithm: self.algorithm,
            public_key: self.public_key.as_slice(),
        })
    }

    fn sign_raw(&mut self, alloc: Global, message: &[u8]) -> Result<Vec<u8>, SignError> {
        let mut builder = DigestBuilder::new(DigestType::Sha256);
        builder.update(&self.flags.to_be_bytes());
        builder.update(&[self.protocol, self.algorithm.to_int()]);
        builder.update(self.public_key.as_slice());
        builder.update(message);
        Ok(builder.finish().as_ref().to_vec(alloc)?)
    }
}
