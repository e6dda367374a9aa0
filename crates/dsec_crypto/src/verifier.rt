//! What decides whether a signature is good.

ghost use Rattle.std.specs.Prelude.{◌≡◌, ◌↔◌, ⊤, IsOk, IsTrue};
ghost use Rattle.dsec_spec.specs.Accepts.{Accepts};

use crate::error::AlgorithmError;
use std::alloc::AllocError;
use std::marker::PhantomData;

/// A test of signatures, fixed by the type: no value of the type is needed.
pub trait Verifier {
    /// Which signatures are good.
    ghost accepts: { Accepts };

    /// Whether the signature over the message is by the key of a DNSKEY record with these flags, this
    /// protocol and this algorithm (RFC 4034 2.1). `key` is the Public Key field, `message` the signed
    /// octets (RFC 4034 3.1.8.1) and `signature` the RRSIG record's Signature field.
    fn verify(
        flags: u16,
        protocol: u8,
        algorithm: u8,
        key: &[u8],
        message: &[u8],
        signature: &[u8],
    ) -> Result<(), AlgorithmError>
        ensures { IsOk result
            ↔ IsTrue (accepts flags protocol algorithm key.now message.now signature.now) };
}

/// The name of a verifier's type as a value, for what holds facts about its signatures.
///
/// It takes no space, and is `Copy`, `Send` and `Sync` whatever `V` is.
pub struct By<V> {
    verifier: PhantomData<V>,
}

impl<V> By<V> {
    ghost use Rattle.dsec_crypto.specs.declared.verifier.By.{By};

    /// The one value.
    pub fn new() -> Self
        ensures { (by : By V) → by ≡ result }
    {
        By {
            verifier: PhantomData,
        }
    }
}

impl<V> Clone for By<V> {
    ghost is_clone = { λ x y. y ≡ x };

    ghost is_infallible = { λ _. ⊤ };

    fn clone(&self) -> Result<By<V>, AllocError> {
        Ok(*self)
    }
}

impl<V> Copy for By<V> {}

// No value of `V` is in it.
unsafe impl<V> Send for By<V> {}

unsafe impl<V> Sync for By<V> {}
