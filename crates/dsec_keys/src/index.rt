//! Where keys of one algorithm and tag stand: by binary search.

ghost use Rattle.std.specs.Prelude.{◌≡◌, ◌<◌, ◌≤◌, ◌+◌, ◌*◌, ◌^◌, List, ℕ, false, length, nat_lt, true};
ghost use Rattle.std.specs.List.Sorted.{IsNonDecreasing, IsPartitionPoint};
ghost use Rattle.dsec_keys.specs.Indexes.{IsIndexOf, IsNextBy, entries_of, entry_of, is_code};

use dsec_number::SecurityAlgorithm;
use std::marker::Model;

/// By how much the code of a key counts for more than its index.
const PLACES: u128 = 1 << 64;

/// Where keys stand among others, by algorithm and tag, in the order of both: 16 octets for each key.
#[derive(Clone, Drop)]
pub struct KeyIndex {
    entries: Vec<u128>,
}

impl Model for KeyIndex {
    ghost use Rattle.std.specs.Prelude.{List, ℕ};

    ghost Value = { List ℕ };

    ghost view = { λ it. it.entries.items };
}

/// What is sorted for a key of an algorithm and a tag at an index: the algorithm decides, then the tag, then the index.
pub fn entry(algorithm: SecurityAlgorithm, tag: u16, index: usize) -> u128
    ensures short { tag < 2 ^ 16 }
    ensures value { result ≡ entry_of (algorithm * 2 ^ 16 + tag) index }
{
    code(algorithm, tag) * PLACES + index as u128
}

/// The number of an algorithm and a tag.
fn code(algorithm: SecurityAlgorithm, tag: u16) -> u128
    ensures value { result ≡ algorithm * 2 ^ 16 + tag }
    ensures bound { result < 2 ^ 24 }
{
    u128::from(algorithm.to_int()) * 65536 + u128::from(tag)
}

impl KeyIndex {
    /// The index of keys with these entries, in the order of the keys.
    pub fn of(entries: Vec<u128>) -> KeyIndex
        ensures { (codes : List ℕ) → entries.items ≡ entries_of codes → IsIndexOf codes result }
    {
        let mut entries = entries;
        entries.sort_unstable();
        KeyIndex { entries }
    }

    /// The next key of an algorithm and a tag, at an index or behind it.
    pub fn next(&self, algorithm: SecurityAlgorithm, tag: u16, from: usize) -> Option<usize>
        ensures { (codes : List ℕ) → IsIndexOf codes self.now → IsNextBy (is_code (algorithm * 2 ^ 16 + tag)) from codes result }
    {
        let least = entry(algorithm, tag, from);
        let at = first_from(&self.entries, least);
        if at == self.entries.len() {
            return None;
        }
        let found = self.entries[at];
        if found / PLACES == least / PLACES {
            Some((found % PLACES) as usize)
        } else {
            None
        }
    }
}

/// Where the first entry stands that isn't less, among entries in order.
fn first_from(entries: &[u128], least: u128) -> usize
    ensures split { IsNonDecreasing entries.now → IsPartitionPoint (λ one. nat_lt one least ≡ true) (λ one. nat_lt one least ≡ false) entries.now result }
    ensures within { result ≤ length entries.now }
{
    entries.partition_point(|one| *one < least)
}
