//! The keys of a zone, as the data of its DNSKEY set, with their tags, which are summed once (RFC 4034 2.1, B).

ghost use Rattle.std.specs.Prelude.{◌≡◌, ◌<◌, IfOk, Some, find, length, map, slice_get};
ghost use Rattle.std.specs.Option.{option_map};
ghost use Rattle.dsec_spec.specs.Groups.{set_in};
ghost use Rattle.dsec_spec.specs.KeyTag.{key_tag};
ghost use Rattle.dsec_spec.specs.Numbers.{DNSKEY};
ghost use Rattle.dsec_wire.specs.Views.{dnskey_in, key_view};
ghost use Rattle.dsec_link.specs.Sets.{AreOf, AreRecordsOf, octets_of};
ghost use Rattle.dsec_link.specs.TaggedKeys.{tagged_view};
ghost use Rattle.dsec_keys.specs.Indexes.{HaveTags, IsIndexOf, code_of};
ghost use Rattle.dsec_nodes.specs.Signing.{data_of, keys_of, says_key};
ghost use Rattle.dsec_node.specs.KeyTags.{AreTags, tag_in};

use dsec_group::{Group, set_of};
use dsec_keys::{KeyIndex, KeyList, entry};
use dsec_link::TaggedKey;
use dsec_name::{NoMemory, Octets};
use dsec_number::SecurityAlgorithm;
use dsec_wire::{Data, Dnskey, Record};
use std::alloc::{AllocError, Global};
use std::marker::Model;

/// The data of a DNSKEY set, in order, with the tags of the keys that they say, and where those of an algorithm and a tag stand.
#[derive(Drop)]
pub struct Keys {
    datas: Vec<Data>,
    tags: Vec<u16>,
    index: KeyIndex,
}

impl Model for Keys {
    ghost use Rattle.std.specs.Prelude.{List, map, ℕ};
    ghost use Rattle.dsec_spec.specs.Numbers.{DNSKEY};
    ghost use Rattle.dsec_link.specs.Sets.{AreOf, octets_of};
    ghost use Rattle.dsec_keys.specs.Indexes.{HaveTags, IsIndexOf, code_of};
    ghost use Rattle.dsec_nodes.specs.Signing.{keys_of};
    ghost use Rattle.dsec_node.specs.KeyTags.{AreTags};

    ghost Value = { List (List ℕ) };

    ghost view = { λ it. octets_of it.datas.items };

    ghost invariant = { λ it. AreOf DNSKEY it.datas.items × AreTags it.tags.items (octets_of it.datas.items)
        × IsIndexOf (map code_of (keys_of (octets_of it.datas.items))) it.index × HaveTags (keys_of (octets_of it.datas.items)) };
}

impl Clone for Keys {
    ghost use Rattle.std.specs.Prelude.{◌≡◌};

    ghost is_clone = { λ old new. new ≡ old };

    fn clone(&self) -> Result<Keys, AllocError> {
        let datas = self.datas.clone()?;
        let tags = self.tags.clone()?;
        let index = self.index.clone()?;
        Ok(Keys { datas, tags, index })
    }
}

impl Keys {
    /// The keys of a DNSKEY set, whose tags are summed.
    pub fn of(alloc: Global, group: &Group) -> Result<Keys, NoMemory>
        requires { group.now.rtype ≡ DNSKEY }
        ensures { IfOk result (λ keys. keys ≡ (set_in group.now).datas) }
    {
        let tags = key_tags(alloc, group)?;
        Keys::with_tags(alloc, group, tags)
    }

    /// The keys of a DNSKEY set, whose tags these are.
    pub(crate) fn with_tags(alloc: Global, group: &Group, tags: Vec<u16>) -> Result<Keys, NoMemory>
        requires typed { group.now.rtype ≡ DNSKEY }
        requires tags { AreTags tags.items (set_in group.now).datas }
        ensures { IfOk result (λ keys. keys ≡ (set_in group.now).datas) }
    {
        let set = set_of(alloc, group)?;
        let datas = copied(alloc, set.datas())?;
        let index = index_of(alloc, &datas, &tags)?;
        Ok(Keys { datas, tags, index })
    }

    /// The data.
    pub fn datas(&self) -> &[Data]
        ensures values { octets_of result.now ≡ self.now }
        ensures typed { AreOf DNSKEY result.now }
    {
        &self.datas
    }

    /// A copy of the first of the data that say a key; no octets where none does.
    pub fn data_saying(&self, alloc: Global, key: &Dnskey<'_>) -> Result<Octets, NoMemory>
        ensures { IfOk result (λ octets. octets ≡ data_of self.now (key_view key.now)) }
    {
        data_in(alloc, &self.datas, key)
    }
}

/// A copy of the first of DNSKEY data that say a key; no octets where none does.
fn data_in(alloc: Global, datas: &[Data], key: &Dnskey<'_>) -> Result<Octets, NoMemory>
    requires { AreOf DNSKEY datas.now }
    ensures { IfOk result (λ octets. octets ≡ data_of (octets_of datas.now) (key_view key.now)) }
{
    match first_saying(datas, key) {
        Some(one) => octets_in(one),
        None => Ok(Octets::new(Vec::new(alloc))),
    }
}

/// The first of these data that say a key.
fn first_saying<'a>(datas: &'a [Data], key: &Dnskey<'_>) -> Option<&'a Data>
    ensures { option_map (λ one. one.now) result ≡ find (λ one. says_key (key_view key.now) (dnskey_in one)) datas.now }
{
    datas.iter().find(|one| says(one, key))
}

/// A copy of the octets of data.
fn octets_in(one: &Data) -> Result<Octets, NoMemory>
    ensures { IfOk result (λ octets. octets ≡ one.now.octets) }
{
    Ok(one.octets().clone()?)
}

/// Copies of data.
fn copied(alloc: Global, datas: &[Data]) -> Result<Vec<Data>, NoMemory>
    ensures { IfOk result (λ copies. copies.items ≡ datas.now) }
{
    let mut copies = Vec::with_capacity(alloc, datas.len())?;
    for one in datas {
        copies.push(copy_of(one)?)?;
    }
    Ok(copies)
}

/// A copy of data.
fn copy_of(one: &Data) -> Result<Data, NoMemory>
    ensures { IfOk result (λ copy. copy ≡ one.now) }
{
    Ok(one.clone()?)
}

/// Whether data say a key.
fn says(one: &Data, key: &Dnskey<'_>) -> bool
    ensures { result ≡ says_key (key_view key.now) (dnskey_in one.now) }
{
    match one.dnskey() {
        Some(other) => {
            other.flags == key.flags
                && other.protocol == key.protocol
                && other.algorithm == key.algorithm
                && other.public_key == key.public_key
        }
        None => false,
    }
}

/// The tags of the keys of a DNSKEY set, in order, each summed once (RFC 4034 B).
pub fn key_tags(alloc: Global, group: &Group) -> Result<Vec<u16>, NoMemory>
    requires { group.now.rtype ≡ DNSKEY }
    ensures { IfOk result (λ tags. AreTags tags.items (set_in group.now).datas) }
{
    summed(alloc, group.rr_set())
}

/// The tags of the keys that DNSKEY records say, in order.
fn summed(alloc: Global, records: &[Record]) -> Result<Vec<u16>, NoMemory>
    requires { AreRecordsOf DNSKEY records.now }
    ensures { IfOk result (λ tags. AreTags tags.items (map (λ one. one.rdata) records.now)) }
{
    let mut tags = Vec::with_capacity(alloc, records.len())?;
    for one in records {
        tags.push(sum_of(one))?;
    }
    Ok(tags)
}

/// The tag of the key that a DNSKEY record says.
fn sum_of(one: &Record) -> u16
    requires { one.now.rtype ≡ DNSKEY }
    ensures { Some result ≡ tag_in one.now.rdata }
{
    match one.rdata().dnskey() {
        Some(key) => key.key_tag(),
        None => unreachable!(),
    }
}

/// Where the keys that DNSKEY data say stand by algorithm and tag, where these are their tags.
fn index_of(alloc: Global, datas: &[Data], tags: &[u16]) -> Result<KeyIndex, NoMemory>
    requires typed { AreOf DNSKEY datas.now }
    requires tags { AreTags tags.now (octets_of datas.now) }
    ensures index { IfOk result (λ index. IsIndexOf (map code_of (keys_of (octets_of datas.now))) index) }
    ensures tags { IfOk result (λ _. HaveTags (keys_of (octets_of datas.now))) }
{
    let mut entries = Vec::with_capacity(alloc, datas.len())?;
    for index in 0..datas.len() {
        let one = tagged_at(datas, tags, index);
        entries.push(entry(one.key.algorithm, one.tag, index))?;
    }
    Ok(KeyIndex::of(entries))
}

/// The key that DNSKEY data at an index say, with its tag of these.
fn tagged_at<'a>(datas: &'a [Data], tags: &[u16], index: usize) -> TaggedKey<'a>
    requires typed { AreOf DNSKEY datas.now }
    requires tags { AreTags tags.now (octets_of datas.now) }
    requires within { index < length datas.now }
    ensures { slice_get (keys_of (octets_of datas.now)) index ≡ Some (tagged_view result) }
{
    match datas[index].dnskey() {
        Some(key) => {
            let tag = tag_at(tags, index, &key);
            TaggedKey { key, tag }
        }
        None => unreachable!(),
    }
}

impl KeyList for Keys {
    ghost keys = { λ it. keys_of it };

    fn next_named(&self, algorithm: SecurityAlgorithm, tag: u16, from: usize) -> Option<usize> {
        self.index.next(algorithm, tag, from)
    }

    fn key_at(&self, index: usize) -> TaggedKey<'_> {
        tagged_at(&self.datas, &self.tags, index)
    }
}

/// The tag of a key, which stands at an index among these.
pub fn tag_at(tags: &[u16], index: usize, key: &Dnskey<'_>) -> u16
    requires { slice_get tags.now index ≡ Some (key_tag (key_view key.now)) }
    ensures { result ≡ key_tag (key_view key.now) }
{
    tags[index]
}
