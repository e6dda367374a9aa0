//! Lists of keys with their tags, in which those of an algorithm and a tag are found.

ghost use Rattle.std.specs.Prelude.{◌≡◌, ◌<◌, ◌^◌, ◌∷◌, [], List, Some, length, map, slice_get, IfOk};
ghost use Rattle.dsec_spec.specs.Records.{Key};
ghost use Rattle.dsec_wire.specs.Views.{key_view};
ghost use Rattle.dsec_link.specs.TaggedKeys.{tagged_view};
ghost use Rattle.dsec_keys.specs.Indexes.{HaveTags, IsIndexOf, IsNextBy, code_of, is_named};

use crate::index::{KeyIndex, entry};
use dsec_link::TaggedKey;
use dsec_name::NoMemory;
use dsec_number::SecurityAlgorithm;
use dsec_wire::Dnskey;
use std::alloc::Global;
use std::marker::Model;

/// Keys in order, as signatures name them: by algorithm and tag (RFC 4034 3.1.2, 3.1.6).
pub trait KeyList {
    /// The keys.
    ghost keys: { Self → List Key };

    /// The next key of an algorithm and a tag, at an index or behind it.
    fn next_named(&self, algorithm: SecurityAlgorithm, tag: u16, from: usize) -> Option<usize>
        ensures next { IsNextBy (is_named algorithm tag) from (keys self.now) result }
        ensures few { length (keys self.now) < 2 ^ 64 };

    /// The key at an index, with its tag.
    fn key_at(&self, index: usize) -> TaggedKey<'_>
        requires { index < length (keys self.now) }
        ensures { slice_get (keys self.now) index ≡ Some (tagged_view result) };
}

/// Keys with their tags, and where those of an algorithm and a tag stand among them.
#[derive(Drop)]
pub struct TaggedKeys<'a> {
    keys: Vec<TaggedKey<'a>>,
    index: KeyIndex,
}

impl<'a> Model for TaggedKeys<'a> {
    ghost use Rattle.std.specs.Prelude.{List, map};
    ghost use Rattle.dsec_spec.specs.Records.{Key};
    ghost use Rattle.dsec_link.specs.TaggedKeys.{tagged_view};
    ghost use Rattle.dsec_keys.specs.Indexes.{HaveTags, IsIndexOf, code_of};

    ghost Value = { List Key };

    ghost view = { λ it. map tagged_view it.keys.items };

    ghost invariant = { λ it. IsIndexOf (map code_of (map tagged_view it.keys.items)) it.index × HaveTags (map tagged_view it.keys.items) };
}

impl<'a> TaggedKeys<'a> {
    /// These keys, whose tags are summed.
    pub fn of(alloc: Global, keys: &[Dnskey<'a>]) -> Result<TaggedKeys<'a>, NoMemory>
        ensures { IfOk result (λ all. all ≡ map key_view keys.now) }
    {
        let keys = all_tagged(alloc, keys)?;
        let index = index_of(alloc, &keys)?;
        Ok(TaggedKeys { keys, index })
    }
}

/// The keys with their tags.
fn all_tagged<'a>(alloc: Global, keys: &[Dnskey<'a>]) -> Result<Vec<TaggedKey<'a>>, NoMemory>
    ensures { IfOk result (λ tagged. map tagged_view tagged.items ≡ map key_view keys.now) }
{
    let mut tagged = Vec::with_capacity(alloc, keys.len())?;
    for key in keys {
        tagged.extend_from_slice(&[TaggedKey::new(key)])?;
    }
    Ok(tagged)
}

/// Where they stand.
fn index_of(alloc: Global, keys: &[TaggedKey<'_>]) -> Result<KeyIndex, NoMemory>
    ensures index { IfOk result (λ index. IsIndexOf (map code_of (map tagged_view keys.now)) index) }
    ensures tags { IfOk result (λ _. HaveTags (map tagged_view keys.now)) }
{
    let mut entries = Vec::with_capacity(alloc, keys.len())?;
    for index in 0..keys.len() {
        let one = &keys[index];
        entries.push(entry(one.key.algorithm, one.tag, index))?;
    }
    Ok(KeyIndex::of(entries))
}

/// A copy of a key with its tag.
fn again<'a>(one: &TaggedKey<'a>) -> TaggedKey<'a>
    ensures { tagged_view result ≡ tagged_view one.now }
{
    let key = Dnskey {
        flags: one.key.flags,
        protocol: one.key.protocol,
        algorithm: one.key.algorithm,
        public_key: one.key.public_key,
    };
    TaggedKey { key, tag: one.tag }
}

impl<'a> KeyList for TaggedKeys<'a> {
    ghost keys = { λ it. it };

    fn next_named(&self, algorithm: SecurityAlgorithm, tag: u16, from: usize) -> Option<usize> {
        self.index.next(algorithm, tag, from)
    }

    fn key_at(&self, index: usize) -> TaggedKey<'_> {
        again(&self.keys[index])
    }
}

impl<'a> KeyList for TaggedKey<'a> {
    ghost keys = { λ it. tagged_view it ∷ [] };

    fn next_named(&self, algorithm: SecurityAlgorithm, tag: u16, from: usize) -> Option<usize> {
        if from == 0 && algorithm == self.key.algorithm && tag == self.tag {
            Some(0)
        } else {
            None
        }
    }

    fn key_at(&self, _index: usize) -> TaggedKey<'_> {
        again(self)
    }
}
