//! Hashes of names, kept for those that were asked for last (RFC 5155 5).

ghost use Rattle.std.specs.Prelude.{◌≡◌, [], IfOk, IfSome, None, Ok, OnErr, OnOk, max};
ghost use Rattle.std.specs.Map.{lookup};
ghost use Rattle.dsec_spec.specs.Digests.{iterated_hash};
ghost use Rattle.lru.specs.LruCache.{lru_cache, promoted, put_entries};
ghost use Rattle.dsec_validated.specs.Nsec3Caches.{IsTrueHash, input_of, same_input};

use crate::sizes::{cap_of, octets as copied};
use dsec_crypto::Verifier;
use dsec_group::Memo;
use dsec_name::{NoMemory, Octets};
use lru::LruCache;
use std::alloc::Global;
use std::hash::{Hash, Hasher};
use std::marker::Model;

/// All that a hash depends on.
#[derive(PartialEq, Eq, Hash, Drop)]
struct HashInput {
    octets: Octets,
    salt: Octets,
    iterations: u16,
}

/// A bounded number of iterated hashes, those that were used last, each by all that it depends on. Each is the true one, by the type.
#[derive(Drop)]
pub struct Nsec3Cache {
    hashes: LruCache<HashInput, [u8; 20]>,
}

impl Model for Nsec3Cache {
    ghost use Rattle.lru.specs.LruCache.{LruCache};
    ghost use Rattle.std.specs.Prelude.{List, ℕ};
    ghost use Rattle.dsec_validated.specs.declared.nsec3_cache.HashInput.{HashInput};
    ghost use Rattle.dsec_validated.specs.Nsec3Caches.{AreTrueHashes};

    ghost Value = { LruCache HashInput (List ℕ) };

    ghost view = { λ it. it.hashes };

    ghost invariant = { λ it. AreTrueHashes it.hashes.entries };
}

impl HashInput {
    /// What the hash depends on.
    fn of(alloc: Global, octets: &[u8], salt: &[u8], iterations: u16) -> Result<HashInput, NoMemory>
        ensures { IfOk result (λ input. input ≡ input_of octets.now salt.now iterations) }
    {
        let octets = copied(alloc, octets)?;
        let salt = copied(alloc, salt)?;
        Ok(HashInput {
            octets,
            salt,
            iterations,
        })
    }
}

impl Nsec3Cache {
    /// A cache of so many hashes at most; 0 counts as 1.
    pub fn new(alloc: Global, size: u64) -> Result<Nsec3Cache, NoMemory>
        ensures { IfOk result (λ cache. cache ≡ lru_cache [] (max 1 size)) }
    {
        Ok(Nsec3Cache {
            hashes: LruCache::sparse(alloc, cap_of(size))?,
        })
    }

    /// The hash that is kept, which becomes the one that was used last.
    fn look_up(&mut self, input: &HashInput) -> Option<[u8; 20]>
        ensures found { result ≡ lookup (same_input input.now) self.old.entries }
        ensures used { self.new ≡ lru_cache (promoted (same_input input.now) self.old.entries) self.old.cap }
    {
        self.hashes.get(input).copied()
    }

    /// Keeps a hash, as the one that was used last; a full cache forgets the one that wasn't used for longest.
    fn store(&mut self, input: HashInput, hash: [u8; 20]) -> Result<(), NoMemory>
        requires { IsTrueHash (input, hash) }
        ensures ok { OnOk result (self.new ≡ lru_cache (put_entries same_input self.old input hash) self.old.cap) }
        ensures err { OnErr result (self.new ≡ self.old) }
    {
        self.hashes.put(input, hash)?;
        Ok(())
    }
}

impl<V: Verifier> Memo<V> for Nsec3Cache {
    /// No answer of a verifier is kept.
    fn get_check(
        &mut self,
        _flags: u16,
        _protocol: u8,
        _algorithm: u8,
        _key: &[u8],
        _message: &[u8],
        _signature: &[u8],
    ) -> Result<Option<bool>, NoMemory>
        ensures none { result ≡ Ok None }
        ensures unchanged { self.new ≡ self.old }
    {
        Ok(None)
    }

    fn put_check(
        &mut self,
        _flags: u16,
        _protocol: u8,
        _algorithm: u8,
        _key: &[u8],
        _message: &[u8],
        _signature: &[u8],
        _yes: bool,
    ) -> Result<(), NoMemory>
        ensures none { result ≡ Ok tt }
        ensures unchanged { self.new ≡ self.old }
    {
        Ok(())
    }

    fn get_hash(
        &mut self,
        octets: &[u8],
        salt: &[u8],
        iterations: u16,
    ) -> Result<Option<[u8; 20]>, NoMemory>
        ensures sound { IfOk result (λ kept. IfSome kept (λ hash. hash ≡ iterated_hash salt.now octets.now iterations)) }
        ensures found { IfOk result (λ kept. kept ≡ lookup (same_input (input_of octets.now salt.now iterations)) self.old.entries) }
        ensures used { OnOk result (self.new ≡ lru_cache (promoted (same_input (input_of octets.now salt.now iterations)) self.old.entries) self.old.cap) }
        ensures err { OnErr result (self.new ≡ self.old) }
    {
        let alloc = *self.hashes.allocator();
        let input = HashInput::of(alloc, octets, salt, iterations)?;
        Ok(self.look_up(&input))
    }

    fn put_hash(
        &mut self,
        octets: &[u8],
        salt: &[u8],
        iterations: u16,
        hash: [u8; 20],
    ) -> Result<(), NoMemory>
        requires { hash ≡ iterated_hash salt.now octets.now iterations }
        ensures ok { OnOk result (self.new ≡ lru_cache (put_entries same_input self.old (input_of octets.now salt.now iterations) hash) self.old.cap) }
        ensures err { OnErr result (self.new ≡ self.old) }
    {
        let alloc = *self.hashes.allocator();
        let input = HashInput::of(alloc, octets, salt, iterations)?;
        self.store(input, hash)
    }
}
