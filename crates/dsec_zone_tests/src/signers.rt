//! A signer that fails at given calls, and tells what it was given.

ghost use Rattle.std.specs.Prelude.{◌≡◌, map, Some};
ghost use Rattle.dsec_rrsig.specs.Keys.{stand_in_signs};

use dsec_name::NoMemory;
use dsec_number::SecurityAlgorithm;
use dsec_sign::{SignError, SignRaw, StandInKey};
use dsec_wire::Dnskey;
use std::alloc::Global;

/// A key of the stand-in that fails at one call, and keeps what it was given.
#[derive(Drop)]
pub(crate) struct FailingKey {
    /// What signs at the other calls.
    pub(crate) key: StandInKey,
    /// The number of the call that fails; the first call has the number 0.
    pub(crate) failing: u64,
    /// How many calls were made: a count that stays at 2^64 - 1.
    pub(crate) calls: u64,
    /// How many of them failed: a count that stays at 2^64 - 1.
    pub(crate) faults: u64,
    /// The messages that it was given, in order, but for those for which there was no memory.
    pub(crate) given: Vec<Vec<u8>>,
}

impl SignRaw for FailingKey {
    ghost signs = { stand_in_signs };

    ghost key = { λ it. it.key };

    ghost faults = { λ it. it.faults };

    ghost asked = { λ it. it.calls };

    ghost given = { λ it. Some (map (λ message. message.items) it.given.items) };

    fn algorithm(&self) -> SecurityAlgorithm {
        self.key.algorithm()
    }

    fn dnskey(&self) -> Result<Dnskey<'_>, NoMemory> {
        self.key.dnskey()
    }

    fn sign_raw(&mut self, alloc: Global, message: &[u8]) -> Result<Vec<u8>, SignError> {
        let fails = self.calls == self.failing;
        self.calls = self.calls.saturating_add(1);
        self.given.push(message.to_vec(alloc)?)?;
        if fails {
            self.faults = self.faults.saturating_add(1);
            return Err(SignError::Failed);
        }
        self.key.sign_raw(alloc, message)
    }
}
