//! Answers of a verifier, kept for the signatures that were asked for last.

ghost use Rattle.std.specs.Prelude.{◌≡◌, [], IfOk, IfSome, None, Ok, OnErr, OnOk, max};
ghost use Rattle.std.specs.Map.{lookup};
ghost use Rattle.lru.specs.LruCache.{lru_cache, promoted, put_entries};
ghost use Rattle.dsec_validated.specs.SigCaches.{IsTrueCheck, check_of, same_check};

use crate::sizes::{cap_of, octets};
use dsec_crypto::{By, Verifier};
use dsec_group::Memo;
use dsec_name::{NoMemory, Octets};
use lru::LruCache;
use std::alloc::Global;
use std::hash::{Hash, Hasher};
use std::marker::Model;

/// All that a verifier's answer depends on.
#[derive(PartialEq, Eq, Hash, Drop)]
struct Check {
    flags: u16,
    protocol: u8,
    algorithm: u8,
    key: Octets,
    message: Octets,
    signature: Octets,
}

/// A bounded number of a verifier's answers, those that were used last, each by all that it depends on. The moment is no part of
/// it: whether a signature is in its period is tested each time. Each answer is the verifier's, by the type.
#[derive(Drop)]
pub struct SigCache<V: Verifier> {
    checks: LruCache<Check, bool>,
    by: By<V>,
}

impl<V: Verifier> Model for SigCache<V> {
    ghost use Rattle.lru.specs.LruCache.{LruCache};
    ghost use Rattle.std.specs.Prelude.{Bool};
    ghost use Rattle.dsec_validated.specs.declared.sig_cache.Check.{Check};
    ghost use Rattle.dsec_validated.specs.SigCaches.{AreTrue};

    ghost Value = { LruCache Check Bool };

    ghost view = { λ it. it.checks };

    ghost invariant = { λ it. AreTrue V.accepts it.checks.entries };
}

impl Check {
    /// What the answer depends on.
    fn of(
        alloc: Global,
        flags: u16,
        protocol: u8,
        algorithm: u8,
        key: &[u8],
        message: &[u8],
        signature: &[u8],
    ) -> Result<Check, NoMemory>
        ensures { IfOk result (λ check. check ≡ check_of flags protocol algorithm key.now message.now signature.now) }
    {
        let key = octets(alloc, key)?;
        let message = octets(alloc, message)?;
        let signature = octets(alloc, signature)?;
        Ok(Check {
            flags,
            protocol,
            algorithm,
            key,
            message,
            signature,
        })
    }
}

impl<V: Verifier> SigCache<V> {
    /// A cache of so many answers at most; 0 counts as 1.
    pub fn new(alloc: Global, size: u64) -> Result<SigCache<V>, NoMemory>
        ensures { IfOk result (λ cache. cache ≡ lru_cache [] (max 1 size)) }
    {
        Ok(SigCache {
            checks: LruCache::sparse(alloc, cap_of(size))?,
            by: By::new(),
        })
    }

    /// The answer that is kept, which becomes the one that was used last.
    fn look_up(&mut self, check: &Check) -> Option<bool>
        ensures found { result ≡ lookup (same_check check.now) self.old.entries }
        ensures used { self.new ≡ lru_cache (promoted (same_check check.now) self.old.entries) self.old.cap }
    {
        self.checks.get(check).copied()
    }

    /// Keeps an answer, as the one that was used last; a full cache forgets the one that wasn't used for longest.
    fn store(&mut self, check: Check, yes: bool) -> Result<(), NoMemory>
        requires { IsTrueCheck V.accepts (check, yes) }
        ensures ok { OnOk result (self.new ≡ lru_cache (put_entries same_check self.old check yes) self.old.cap) }
        ensures err { OnErr result (self.new ≡ self.old) }
    {
        self.checks.put(check, yes)?;
        Ok(())
    }
}

impl<V: Verifier> Memo<V> for SigCache<V> {
    fn get_check(
        &mut self,
        flags: u16,
        protocol: u8,
        algorithm: u8,
        key: &[u8],
        message: &[u8],
        signature: &[u8],
    ) -> Result<Option<bool>, NoMemory>
        ensures sound { IfOk result (λ kept. IfSome kept (λ yes. yes ≡ V.accepts flags protocol algorithm key.now message.now signature.now)) }
        ensures found { IfOk result (λ kept. kept ≡ lookup (same_check (check_of flags protocol algorithm key.now message.now signature.now)) self.old.entries) }
        ensures used { OnOk result (self.new ≡ lru_cache (promoted (same_check (check_of flags protocol algorithm key.now message.now signature.now)) self.old.entries) self.old.cap) }
        ensures err { OnErr result (self.new ≡ self.old) }
    {
        let alloc = *self.checks.allocator();
        let check = Check::of(alloc, flags, protocol, algorithm, key, message, signature)?;
        Ok(self.look_up(&check))
    }

    fn put_check(
        &mut self,
        flags: u16,
        protocol: u8,
        algorithm: u8,
        key: &[u8],
        message: &[u8],
        signature: &[u8],
        yes: bool,
    ) -> Result<(), NoMemory>
        requires { yes ≡ V.accepts flags protocol algorithm key.now message.now signature.now }
        ensures ok { OnOk result (self.new ≡ lru_cache (put_entries same_check self.old (check_of flags protocol algorithm key.now message.now signature.now) yes) self.old.cap) }
        ensures err { OnErr result (self.new ≡ self.old) }
    {
        let alloc = *self.checks.allocator();
        let check = Check::of(alloc, flags, protocol, algorithm, key, message, signature)?;
        self.store(check, yes)
    }

    /// No hash is kept.
    fn get_hash(
        &mut self,
        _octets: &[u8],
        _salt: &[u8],
        _iterations: u16,
    ) -> Result<Option<[u8; 20]>, NoMemory>
        ensures none { result ≡ Ok None }
        ensures unchanged { self.new ≡ self.old }
    {
        Ok(None)
    }

    fn put_hash(
        &mut self,
        _octets: &[u8],
        _salt: &[u8],
        _iterations: u16,
        _hash: [u8; 20],
    ) -> Result<(), NoMemory>
        ensures none { result ≡ Ok tt }
        ensures unchanged { self.new ≡ self.old }
    {
        Ok(())
    }
}
