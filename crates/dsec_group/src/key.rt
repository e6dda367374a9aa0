//! What the records of one group share, as a test and as a hash that groups are looked up by.

ghost use Rattle.std.specs.Prelude.{◌≡◌};
ghost use Rattle.dsec_group.specs.Adding.{belongs_to};
ghost use Rattle.dsec_group.specs.Keys.{key_of};
ghost use Rattle.dsec_group.specs.Places.{key_hash};

use crate::group::{Group, grouped_type};
use crate::seed::Seed;
use dsec_wire::Record;
use std::hash::{BuildHasher, Hasher};

/// Whether a record belongs to a group: it is of one owner, class and grouped type with the group's first. Names come last.
pub(crate) fn belongs(next: &Record, group: &Group) -> bool
    ensures { result ≡ belongs_to next.now group.now }
{
    let first = group.leader();
    grouped_type(first) == grouped_type(next)
        && first.class() == next.class()
        && *first.owner() == *next.owner()
}

/// The hash of a record's owner, in canonical octets (RFC 4034 6.2), its class, and the type that it is grouped by.
pub(crate) fn hash_of(next: &Record, seed: Seed) -> u64
    ensures { result ≡ key_hash seed (key_of next.now) }
{
    let owner = next.owner().canonical_octets();
    let mut hasher = seed.build_hasher();
    hasher.write(owner.as_slice());
    hasher.write(&next.class().to_int().to_be_bytes());
    hasher.write(&grouped_type(next).to_int().to_be_bytes());
    hasher.finish()
}
