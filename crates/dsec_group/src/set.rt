//! The groups of a section.

ghost use Rattle.std.specs.Prelude.{◌≡◌, ◌<◌, ◌++◌, ◌∷◌, [], List, IfOk, IfSome, IfNone, OnOk, OnErr, Some, false, true, length, map, slice_get, slice_set};
ghost use Rattle.std.specs.Slice.Iter.{iter_rest};
ghost use Rattle.dsec_spec.specs.Groups as grouping;
ghost use Rattle.dsec_spec.specs.Records as entries;
ghost use Rattle.dsec_group.specs.Adding.{belongs_to, new_group, placed as placed_in, put_in};
ghost use Rattle.dsec_group.specs.Hashing.{fixed_seed};
ghost use Rattle.dsec_group.specs.Keys.{AreDistinct, HasFreshKey, group_key, has_key, key_of};
ghost use Rattle.dsec_group.specs.Places.{AreKept};

use crate::group::Group;
use crate::places::Places;
use crate::seed::Seed;
use dsec_name::NoMemory;
use dsec_wire::{Record, Records};
use std::alloc::Global;
use std::marker::Model;
use std::slice::Iter;

/// The groups of a section, in order of first arrival, and where each is found by what its records share.
#[derive(Drop)]
pub struct GroupSet {
    groups: Vec<Group>,
    places: Places,
}

impl Model for GroupSet {
    ghost use Rattle.dsec_group.specs.Places.{AreKept, SeededGroups, seed_of};

    ghost Value = { SeededGroups };

    ghost view = { λ it. record { groups = it.groups.items; seed = seed_of it.places } };

    ghost invariant = { λ it. AreKept it.places it.groups.items };
}

impl GroupSet {
    /// The groups of an empty section, hashed by the seed that is the same for all.
    pub fn new(alloc: Global) -> GroupSet
        ensures empty { result.groups ≡ [] }
        ensures groups { result.groups ≡ grouping.groups_of [] }
        ensures seed { result.seed ≡ fixed_seed }
    {
        GroupSet::with_seed(alloc, Seed::fixed())
    }

    /// The groups of an empty section, hashed by a seed.
    pub fn with_seed(alloc: Global, seed: Seed) -> GroupSet
        ensures empty { result.groups ≡ [] }
        ensures groups { result.groups ≡ grouping.groups_of [] }
        ensures seed { result.seed ≡ seed }
    {
        GroupSet {
            groups: Vec::new(alloc),
            places: Places::new(alloc, seed),
        }
    }

    /// The groups, in order of first arrival. No two have the same owner, class and type, where a signature is of the type that it covers.
    pub fn as_slice(&self) -> &[Group]
        ensures value { result.now ≡ self.now.groups }
        ensures distinct { AreDistinct self.now.groups }
    {
        &self.groups
    }

    /// The groups as a vector, in order of first arrival.
    pub fn into_vec(self) -> Vec<Group>
        ensures { result.items ≡ self.groups }
    {
        self.groups
    }

    /// The groups one by one, in order of first arrival.
    pub fn iter(&self) -> Iter<'_, Group>
        ensures { iter_rest result ≡ self.now.groups }
    {
        self.as_slice().iter()
    }

    /// How many groups there are.
    pub fn len(&self) -> usize
        ensures { result ≡ length self.now.groups }
    {
        self.groups.len()
    }

    /// The seed that the groups are hashed by.
    pub fn seed(&self) -> Seed
        ensures { result ≡ self.now.seed }
    {
        self.places.seed()
    }

    /// Adds the section's next record.
    pub fn add(&mut self, next: Record) -> Result<(), NoMemory>
        ensures placed { OnOk result (self.new.groups ≡ placed_in next self.old.groups) }
        ensures section { (section : List entries.Record) → self.old.groups ≡ grouping.groups_of section → OnOk result (self.new.groups ≡ grouping.groups_of (section ++ next ∷ [])) }
        ensures err { OnErr result (self.new.groups ≡ self.old.groups) }
        ensures seed { self.new.seed ≡ self.old.seed }
    {
        self.place(next)
    }

    /// The same, without what it says of sections.
    fn place(&mut self, next: Record) -> Result<(), NoMemory>
        ensures ok { OnOk result (self.new.groups ≡ placed_in next self.old.groups) }
        ensures err { OnErr result (self.new.groups ≡ self.old.groups) }
        ensures seed { self.new.seed ≡ self.old.seed }
    {
        if let Some(index) = index_of(&self.places, &self.groups, &next) {
            return self.groups[index].put(next);
        }
        let group = Group::of(self.allocator(), next)?;
        self.push(group)
    }

    /// Adds a group at the end, whose key no group has yet.
    pub(crate) fn push(&mut self, group: Group) -> Result<(), NoMemory>
        requires fresh { HasFreshKey group self.old.groups }
        ensures ok { OnOk result (self.new.groups ≡ self.old.groups ++ group ∷ []) }
        ensures err { OnErr result (self.new.groups ≡ self.old.groups) }
        ensures seed { self.new.seed ≡ self.old.seed }
    {
        self.places.note(&self.groups, group.leader())?;
        self.groups.push(group)?;
        Ok(())
    }

    /// Lets go of what is kept for records that are added, which is made again where one is added after all.
    pub(crate) fn settle(&mut self)
        ensures groups { self.new.groups ≡ self.old.groups }
        ensures seed { self.new.seed ≡ self.old.seed }
    {
        settle_all(&mut self.groups);
    }

    /// Where the groups take their memory.
    pub(crate) fn allocator(&self) -> Global {
        *self.groups.allocator()
    }

    /// A copy of the groups, hashed by the same seed.
    pub fn clone(&self) -> Result<GroupSet, NoMemory>
        ensures groups { IfOk result (λ copy. copy.groups ≡ self.now.groups) }
        ensures seed { IfOk result (λ copy. copy.seed ≡ self.now.seed) }
    {
        let groups = self.as_slice();
        let mut copy = GroupSet::with_seed(self.allocator(), self.seed());
        for group in groups {
            copy.push(group.clone()?)?;
        }
        Ok(copy)
    }
}

/// The index of the group that a record belongs to.
fn index_of(places: &Places, groups: &[Group], next: &Record) -> Option<usize>
    requires { AreKept places.now groups.now }
    ensures within { IfSome result (λ index. index < length groups.now) }
    ensures belongs { IfSome result (λ index. (group : grouping.Group) → slice_get groups.now index ≡ Some group → belongs_to next.now group ≡ true) }
    ensures found { IfSome result (λ index. (group : grouping.Group) → slice_get groups.now index ≡ Some group → placed_in next.now groups.now ≡ slice_set groups.now index (put_in next.now group)) }
    ensures stays { IfSome result (λ index. (group : grouping.Group) → slice_get groups.now index ≡ Some group → map group_key (slice_set groups.now index (put_in next.now group)) ≡ map group_key groups.now) }
    ensures none { IfNone result (placed_in next.now groups.now ≡ groups.now ++ new_group next.now ∷ []) }
    ensures absent { IfNone result (has_key (key_of next.now) groups.now ≡ false) }
{
    places.find(groups, next)
}

/// The groups of a section's records, hashed by a seed.
pub fn groups(alloc: Global, section: Records, seed: Seed) -> Result<GroupSet, NoMemory>
    ensures groups { IfOk result (λ groups. groups.groups ≡ grouping.groups_of section) }
    ensures seed { IfOk result (λ groups. groups.seed ≡ seed) }
{
    let mut groups = GroupSet::with_seed(alloc, seed);
    for next in section.into_vec() {
        groups.add(next)?;
    }
    groups.settle();
    Ok(groups)
}

/// Lets go of what groups keep for records that are added.
fn settle_all(groups: &mut [Group])
    ensures { groups.new ≡ groups.old }
{
    for index in 0..groups.len() {
        groups[index].settle();
    }
}
