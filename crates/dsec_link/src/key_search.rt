//! The key of a set that a DS record speaks of (RFC 4035 5.2).

ghost use Rattle.std.specs.Prelude.{◌≡◌, ◌↔◌, IsTrue, map};
ghost use Rattle.dsec_spec.specs.KeySearch.{first_key, is_named, is_spoken_of};
ghost use Rattle.dsec_spec.specs.Numbers.{DNSKEY};
ghost use Rattle.dsec_wire.specs.DataViews.{ds_view};
ghost use Rattle.dsec_link.specs.KeySearches.{search_view, trial_of};
ghost use Rattle.dsec_link.specs.Sets.{AreRecordsOf};

use crate::ds_ext::{has_digest_of, names_key};
use dsec_name::Name;
use dsec_wire::{Data, Ds, Record};

/// What comes of the search for the key that a DS record speaks of.
#[derive(Clone, Copy, Debug, PartialEq, Eq)]
pub enum KeySearch {
    /// It is the key at this index.
    FoundAt(usize),
    /// It isn't among the keys.
    NotFound,
    /// It isn't among the keys that may be tried, and there are more with the record's algorithm and tag.
    TooMany,
}

/// What comes of one key in such a search.
#[derive(Clone, Copy)]
pub enum KeyTrial {
    /// It is the key that the record speaks of.
    Match,
    /// It has the record's algorithm and tag, and another digest.
    Mismatch,
    /// Its algorithm or its tag is another.
    Other,
    /// It has the record's algorithm and tag, and may not be tried any more.
    Excess,
}

/// `==` on what comes of a search is equality, of indexes as well.
pub fn law_of_equal_searches(search: KeySearch, other: KeySearch) -> bool
    ensures { IsTrue result ↔ (search ≡ other) }
{
    search == other
}

/// The first key of the owner that the DS record speaks of, among the DNSKEY records in order. Only those with the
/// record's algorithm and tag count, and a digest is taken of `most` of these at most: keys can be made to have one tag.
pub fn first_key_for(ds: &Ds<'_>, owner: &Name, keys: &[Record], most: usize) -> KeySearch
    requires { AreRecordsOf DNSKEY keys.now }
    ensures { search_view result ≡ first_key (ds_view ds.now) owner.now most (map (λ one. one.rdata) keys.now) }
{
    let mut left = most;
    for index in 0..keys.len() {
        match try_key(ds, owner, keys[index].rdata(), left > 0) {
            KeyTrial::Match => return KeySearch::FoundAt(index),
            KeyTrial::Mismatch => left -= 1,
            KeyTrial::Other => {}
            KeyTrial::Excess => return KeySearch::TooMany,
        }
    }
    KeySearch::NotFound
}

/// What comes of the key that data say, where it may be tried or not.
fn try_key(ds: &Ds<'_>, owner: &Name, key: &Data, may: bool) -> KeyTrial
    requires { key.now.rtype ≡ DNSKEY }
    ensures { result ≡ trial_of (is_named (ds_view ds.now) key.now.octets) (is_spoken_of (ds_view ds.now) owner.now key.now.octets) may }
{
    match key.dnskey() {
        Some(key) => {
            if !names_key(ds, &key) {
                KeyTrial::Other
            } else if !may {
                KeyTrial::Excess
            } else if has_digest_of(ds, owner, &key) {
                KeyTrial::Match
            } else {
                KeyTrial::Mismatch
            }
        }
        None => KeyTrial::Other,
    }
}
