//! Where a record's group is found.

ghost use Rattle.std.specs.Prelude.{◌≡◌, ◌++◌, ◌∷◌, [], List, Option, IfOk, OnOk, Some, false, map, position};
ghost use Rattle.dsec_group.specs.Adding.{belongs_to};
ghost use Rattle.dsec_group.specs.Keys.{GroupKey, group_key, is_key, key_of};
ghost use Rattle.dsec_group.specs.Places.{AreKept, HasPlace, Knows, KnowsGroups, seed_of};
ghost use Rattle.indexmap.specs.IndexMap.{hasher_of};

use crate::group::Group;
use crate::key::{belongs, hash_of};
use crate::seed::Seed;
use dsec_name::NoMemory;
use dsec_wire::Record;
use indexmap::IndexMap;
use std::alloc::Global;

/// So many groups at most are looked through one by one.
const FEW_GROUPS: usize = 16;

/// Of each group, by the hash of what its records share, where a group of this hash stands, once there are more than `FEW_GROUPS`.
/// It keeps no names: a group's own first record says what the group is.
#[derive(Drop)]
pub(crate) struct Places {
    places: IndexMap<u64, usize, Seed>,
    is_made: bool,
}

impl Places {
    /// The places of no groups.
    pub(crate) fn new(alloc: Global, seed: Seed) -> Places
        ensures unmade { result.is_made ≡ false }
        ensures seed { seed_of result ≡ seed }
    {
        Places {
            places: IndexMap::with_hasher(alloc, seed),
            is_made: false,
        }
    }

    /// What the hashes begin with.
    pub(crate) fn seed(&self) -> Seed
        ensures { result ≡ seed_of self.now }
    {
        *self.places.hasher()
    }

    /// The index of the group that a record belongs to.
    pub(crate) fn find(&self, groups: &[Group], next: &Record) -> Option<usize>
        requires { AreKept self.now groups.now }
        ensures { result ≡ position (is_key (key_of next.now)) (map group_key groups.now) }
    {
        if !self.is_made {
            return scan(groups, next);
        }
        let hash = hash_of(next, *self.places.hasher());
        match self.places.get(&hash) {
            Some(at) => {
                let at = *at;
                if at < groups.len() && belongs(next, &groups[at]) {
                    Some(at)
                } else {
                    scan(groups, next)
                }
            }
            None => None,
        }
    }

    /// Notes the place of one more group, which has this first record and comes behind the others.
    pub(crate) fn note(&mut self, groups: &[Group], leader: &Record) -> Result<(), NoMemory>
        ensures kept { KnowsGroups self.old (map group_key groups.now) → KnowsGroups self.new (map group_key groups.now) }
        ensures noted { OnOk result (KnowsGroups self.old (map group_key groups.now) → KnowsGroups self.new (map group_key groups.now ++ Some (key_of leader.now) ∷ [])) }
        ensures seed { seed_of self.new ≡ seed_of self.old }
    {
        if self.is_made {
            return put(&mut self.places, leader, groups.len());
        }
        if groups.len() < FEW_GROUPS {
            return Ok(());
        }
        let mut places = places_of(groups, *self.places.allocator(), *self.places.hasher())?;
        put(&mut places, leader, groups.len())?;
        self.places = places;
        self.is_made = true;
        Ok(())
    }
}

/// The index of the group that a record belongs to, by looking at one after the other.
fn scan(groups: &[Group], next: &Record) -> Option<usize>
    ensures { result ≡ position (belongs_to next.now) groups.now }
{
    groups.iter().position(|group| belongs(next, group))
}

/// The places of groups.
fn places_of(
    groups: &[Group],
    alloc: Global,
    seed: Seed,
) -> Result<IndexMap<u64, usize, Seed>, NoMemory>
    ensures knows { IfOk result (λ places. Knows places (map group_key groups.now)) }
    ensures seed { IfOk result (λ places. hasher_of places ≡ seed) }
{
    let mut places = IndexMap::with_hasher(alloc, seed);
    for index in 0..groups.len() {
        put(&mut places, groups[index].leader(), index)?;
    }
    Ok(places)
}

/// Puts the place of the group that has this first record.
fn put(
    places: &mut IndexMap<u64, usize, Seed>,
    leader: &Record,
    index: usize,
) -> Result<(), NoMemory>
    ensures kept { (keys : List (Option GroupKey)) → Knows places.old keys → Knows places.new keys }
    ensures put { OnOk result (HasPlace places.new (Some (key_of leader.now))) }
    ensures seed { hasher_of places.new ≡ hasher_of places.old }
{
    let hash = hash_of(leader, *places.hasher());
    places.insert(hash, index)?;
    Ok(())
}
