//! How the keys of groups are hashed: by a seed, against names that are chosen to fall together.

ghost use Rattle.std.specs.Prelude.{◌≡◌};
ghost use Rattle.dsec_spec.specs.Messages.{header_of};
ghost use Rattle.dsec_group.specs.Hashing.{fixed_seed, message_seed, mixed as mixed_of, seed_in};

use dsec_crypto::{DigestBuilder, DigestType};
use dsec_message::Message;
use std::hash::{BuildHasher, Hasher};

/// A message of so many records is hashed by the fixed seed: that few names can fall together without harm.
pub const FEW_RECORDS: usize = 64;

/// What goes into each step of a hash, and where it begins. Names that were chosen to fall together under one seed are scattered by another, as
/// far as was measured.
#[derive(Clone, Copy, Debug, PartialEq, Eq)]
pub struct Seed {
    state: u64,
    factor: u64,
}

impl Seed {
    /// The same seed for all.
    pub fn fixed() -> Seed
        ensures { result ≡ fixed_seed }
    {
        Seed {
            state: 0x243f_6a88_85a3_08d3,
            factor: 0x1319_8a2e_0370_7345,
        }
    }

    /// The seed for the groups of a message: where it says to have more than `FEW_RECORDS` records, the first 16 octets of its
    /// SHA-256, so that whoever chooses its names changes the seed with them; otherwise the fixed one.
    pub fn of_message(message: &Message) -> Seed
        ensures { result ≡ message_seed message.now (header_of message.now) }
    {
        let header = message.header();
        let answers = usize::from(header.ancount()) + usize::from(header.nscount());
        if answers + usize::from(header.arcount()) <= FEW_RECORDS {
            return Seed::fixed();
        }
        let mut builder = DigestBuilder::new(DigestType::Sha256);
        builder.update(message.as_slice());
        Seed::of_digest(builder.finish().as_ref())
    }

    /// The seed of a digest's first 16 octets. The factor is odd.
    fn of_digest(digest: &[u8]) -> Seed
        ensures { result ≡ seed_in digest.now }
    {
        match *digest {
            [a, b, c, d, e, f, g, h, i, j, k, l, m, n, o, p, ..] => Seed {
                state: u64::from_be_bytes([a, b, c, d, e, f, g, h]),
                factor: u64::from_be_bytes([i, j, k, l, m, n, o, p]) | 1,
            },
            _ => Seed::fixed(),
        }
    }
}

/// A hash on its way.
#[derive(Clone, Copy)]
pub struct SeededHasher {
    state: u64,
    factor: u64,
}

impl BuildHasher for Seed {
    ghost use Rattle.dsec_group.specs.Hashing.{begun};

    type Hasher = SeededHasher;

    ghost build_hasher = { begun };

    fn build_hasher(&self) -> SeededHasher {
        SeededHasher {
            state: self.state,
            factor: self.factor,
        }
    }
}

impl Hasher for SeededHasher {
    ghost use Rattle.dsec_group.specs.Hashing.{written};

    ghost write = { written };

    ghost finish = { λ hasher. hasher.state };

    fn finish(&self) -> u64 {
        self.state
    }

    fn write(&mut self, octets: &[u8]) {
        let mut state = self.state;
        for octet in octets {
            state = mixed(state ^ u64::from(*octet), self.factor);
        }
        self.state = state;
    }
}

/// The halves of a product, joined by exclusive or.
fn mixed(state: u64, factor: u64) -> u64
    ensures { result ≡ mixed_of state factor }
{
    let product = u128::from(state) * u128::from(factor);
    (product & 0xffff_ffff_ffff_ffff) as u64 ^ (product >> 64) as u64
}
