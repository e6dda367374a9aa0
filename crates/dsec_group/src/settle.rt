//! Bare aliases, moved to the groups that they follow from (RFC 6672 3.1).

ghost use Rattle.std.specs.Prelude.{◌≡◌, IfOk, OnErr, OnOk, Some, None, count_by, if◌then◌else◌, length, map, unwrap_or};
ghost use Rattle.dsec_cause.specs.declared.cause.Cause.TheVariants.{TooManyUnsignedCnames};
ghost use Rattle.dsec_spec.specs.Redirection.{followed as followed_of, has_too_many, is_bare, moved, staying_from, with_followers};
ghost use Rattle.dsec_group.specs.Followers.{follower_view, followers_at, followers_in};

use crate::dname::{bare_alias, followed};
use crate::group::Group;
use crate::set::GroupSet;
use dsec_cause::Cause;
use dsec_name::NoMemory;
use dsec_wire::Record;
use std::alloc::Global;

/// A bare alias, and the index of the group that it follows from.
#[derive(Clone, Copy)]
struct Follower<'a> {
    to: usize,
    alias: &'a Group,
}

impl GroupSet {
    /// Moves each bare alias, which is a group of one CNAME record without a signature, to the first group of its class with a
    /// DNAME record that maps its owner to its target, where none of the anchors stands between the two: it becomes an extra
    /// record there. A mapping past 255 octets ends its search, and it stays. Where there are more bare aliases than
    /// `max_cname_dname` nothing is moved, and the cause says so.
    pub fn move_redundant_cnames(
        &mut self,
        anchors: &[Record],
        max_cname_dname: u8,
    ) -> Result<Option<Cause>, NoMemory>
        ensures cause { IfOk result (λ cause. cause ≡ (if has_too_many max_cname_dname self.old.groups then Some TooManyUnsignedCnames else None)) }
        ensures moved { OnOk result (self.new.groups ≡ unwrap_or (moved anchors.now max_cname_dname self.old.groups) self.old.groups) }
        ensures err { OnErr result (self.new.groups ≡ self.old.groups) }
        ensures seed { self.new.seed ≡ self.old.seed }
    {
        let bare = bare_count(self.as_slice());
        if bare > usize::from(max_cname_dname) {
            return Ok(Some(Cause::TooManyUnsignedCnames));
        }
        if bare > 0 {
            let settled = self.settled(anchors)?;
            *self = settled;
        }
        Ok(None)
    }

    /// The groups with each bare alias moved.
    fn settled(&self, anchors: &[Record]) -> Result<GroupSet, NoMemory>
        ensures stay { IfOk result (λ set. set.groups ≡ staying_from anchors.now self.now.groups 0 self.now.groups) }
        ensures seed { IfOk result (λ set. set.seed ≡ self.now.seed) }
    {
        let groups = self.as_slice();
        let alloc = self.allocator();
        let all = all_followed(alloc, anchors, groups)?;
        let followers = followers_among(alloc, groups, &all)?;
        let mut settled = GroupSet::with_seed(alloc, self.seed());
        for index in 0..groups.len() {
            if all[index].is_none() {
                settled.push(with_all(&groups[index], index, &followers)?)?;
            }
        }
        Ok(settled)
    }
}

/// How many of the groups are bare aliases.
fn bare_count(groups: &[Group]) -> usize
    ensures { result ≡ count_by is_bare groups.now }
{
    let mut count = 0;
    for group in groups {
        if bare_alias(group).is_some() {
            count += 1;
        }
    }
    count
}

/// The index of the group that each of the groups follows from, where it does.
fn all_followed(
    alloc: Global,
    anchors: &[Record],
    groups: &[Group],
) -> Result<Vec<Option<usize>>, NoMemory>
    ensures { IfOk result (λ all. all.items ≡ map (followed_of anchors.now groups.now) groups.now) }
{
    let mut all = Vec::with_capacity(alloc, groups.len())?;
    for group in groups {
        all.push(followed(alloc, anchors, groups, group)?)?;
    }
    Ok(all)
}

/// The bare aliases that follow from one of the groups, in order.
fn followers_among<'a>(
    alloc: Global,
    groups: &'a [Group],
    all: &[Option<usize>],
) -> Result<Vec<Follower<'a>>, NoMemory>
    requires { length all.now ≡ length groups.now }
    ensures { IfOk result (λ followers. map follower_view followers.items ≡ followers_in all.now groups.now) }
{
    let mut followers = Vec::new(alloc);
    for index in 0..groups.len() {
        if let Some(to) = all[index] {
            followers.push(Follower {
                to,
                alias: &groups[index],
            })?;
        }
    }
    Ok(followers)
}

/// The group at an index with its followers.
fn with_all(group: &Group, index: usize, followers: &[Follower<'_>]) -> Result<Group, NoMemory>
    ensures { IfOk result (λ whole. whole ≡ with_followers group.now (followers_at index (map follower_view followers.now))) }
{
    let mut whole = group.clone()?;
    for follower in followers {
        if follower.to == index {
            whole.take_on(follower.alias)?;
        }
    }
    Ok(whole)
}
