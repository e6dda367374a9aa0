//! What caches share: how much they hold, and copies of octets.

ghost use Rattle.std.specs.Prelude.{◌≡◌, IfOk, max};
ghost use Rattle.std.specs.NonZero.{non_zero_usize_get};

use dsec_name::{NoMemory, Octets};
use std::alloc::Global;
use std::num::NonZeroUsize;

/// A size that isn't 0.
pub(crate) fn cap_of(size: u64) -> NonZeroUsize
    ensures { non_zero_usize_get result ≡ max 1 size }
{
    match NonZeroUsize::new(size as usize) {
        Some(cap) => cap,
        None => NonZeroUsize::MIN,
    }
}

/// A copy of octets.
pub(crate) fn octets(alloc: Global, from: &[u8]) -> Result<Octets, NoMemory>
    ensures { IfOk result (λ copy. copy ≡ from.now) }
{
    Ok(Octets::new(Vec::from_slice(alloc, from)?))
}
