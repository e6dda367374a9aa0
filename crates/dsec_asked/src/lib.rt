//! A memo that counts how often it is asked, for tests.
#![tactic(auto)]

use dsec_crypto::Verifier;
use dsec_group::Memo;
use dsec_name::NoMemory;

/// A memo that keeps nothing, and counts how often it is asked for a verifier's answer.
#[derive(Drop)]
pub struct Asked {
    /// How often it was asked.
    pub times: u32,
}

impl<V: Verifier> Memo<V> for Asked {
    fn get_check(
        &mut self,
        _flags: u16,
        _protocol: u8,
        _algorithm: u8,
        _key: &[u8],
        _message: &[u8],
        _signature: &[u8],
    ) -> Result<Option<bool>, NoMemory> {
        self.times = self.times.saturating_add(1);
        Ok(None)
    }

    fn put_check(
        &mut self,
        _flags: u16,
        _protocol: u8,
        _algorithm: u8,
        _key: &[u8],
        _message: &[u8],
        _signature: &[u8],
        _yes: bool,
    ) -> Result<(), NoMemory> {
        Ok(())
    }

    fn get_hash(
        &mut self,
        _octets: &[u8],
        _salt: &[u8],
        _iterations: u16,
    ) -> Result<Option<[u8; 20]>, NoMemory> {
        Ok(None)
    }

    fn put_hash(
        &mut self,
        _octets: &[u8],
        _salt: &[u8],
        _iterations: u16,
        _hash: [u8; 20],
    ) -> Result<(), NoMemory> {
        Ok(())
    }
}
