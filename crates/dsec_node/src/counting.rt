//! For how long a node counts, and for whom (RFC 4035 4.5, 5.3.3).

ghost use Rattle.std.specs.Prelude.{◌≡◌, ◌↔◌, ◌≤◌, ◌+◌, IsTrue, Some};
ghost use Rattle.std.specs.List.{list_any};
ghost use Rattle.dsec_spec.specs.Names.{place, same_place};
ghost use Rattle.dsec_nodes.specs.Nodes.{IsBogus};
ghost use Rattle.dsec_nodes.specs.Taking.{RestsAt, Taken, rests_at as anchor_rests, same_record};
ghost use Rattle.dsec_node.specs.Counting.{IsExpired, seconds_kept};
ghost use Rattle.dsec_node.specs.Views.{bounds_view, world_of};

use crate::bounds::Bounds;
use crate::node::Node;
use crate::standing::Standing;
use dsec_crypto::Verifier;
use dsec_name::Name;
use dsec_wire::Record;

impl<V: Verifier> Node<V> {
    /// Whether it counts no more, or not yet, at a moment in seconds since 1970.
    pub fn expired(&self, now: u64) -> bool
        ensures { IsTrue result ↔ IsExpired self.now now }
    {
        match now.checked_sub(self.made()) {
            Some(elapsed) => self.valid_for() < elapsed,
            None => true,
        }
    }

    /// For how many seconds more it counts at a moment; 0 where it is expired.
    pub fn ttl(&self, now: u64) -> u64
        ensures { result ≡ seconds_kept self.now now }
    {
        match now.checked_sub(self.made()) {
            Some(elapsed) => self.valid_for().saturating_sub(elapsed),
            None => 0,
        }
    }

    /// Whether it counts for whoever looks up a name below the island `top`, where these anchors stand, within these bounds, at a
    /// moment in seconds since 1970.
    pub fn counts(
        &self,
        top: &Name,
        name: &Name,
        anchors: &[Record],
        bounds: &Bounds,
        now: u64,
    ) -> bool
        ensures { IsTrue result ↔ Taken (world_of V.accepts anchors.now (bounds_view bounds.now) now) (place top.now) (place name.now) self.now }
    {
        if self.is_bogus() {
            return false;
        }
        if !self.is_of(name) {
            return false;
        }
        if !self.rests_at(top, anchors) {
            return false;
        }
        if !self.is_within(bounds) {
            return false;
        }
        self.is_in_time(now)
    }

    /// Whether it is bogus.
    fn is_bogus(&self) -> bool
        ensures { result ≡ IsBogus self.now.standing }
    {
        matches!(self.standing(), Standing::Bogus(_))
    }

    /// Whether it is known of a name.
    fn is_of(&self, name: &Name) -> bool
        ensures { IsTrue result ↔ (self.now.name ≡ place name.now) }
    {
        *self.name() == *name
    }

    /// Whether its anchor stands at the island and is one of these.
    fn rests_at(&self, top: &Name, anchors: &[Record]) -> bool
        ensures { IsTrue result ↔ RestsAt anchors.now (place top.now) self.now }
    {
        match self.anchor() {
            Some(anchor) => is_at(anchor, top, anchors),
            None => false,
        }
    }

    /// Whether it is kept at a moment.
    fn is_in_time(&self, now: u64) -> bool
        ensures { IsTrue result ↔ ((self.now.made ≤ now) × (now ≤ self.now.made + self.now.valid_for)) }
    {
        !self.expired(now)
    }

    /// Whether it was made within bounds.
    fn is_within(&self, bounds: &Bounds) -> bool
        ensures { IsTrue result ↔ (self.now.bounds ≡ bounds_view bounds.now) }
    {
        self.bounds() == *bounds
    }
}

/// Whether an anchor stands at a name and is one of these.
fn is_at(anchor: &Record, top: &Name, anchors: &[Record]) -> bool
    ensures { result ≡ anchor_rests anchors.now (place top.now) (Some anchor.now) }
{
    *anchor.owner() == *top && is_among(anchor, anchors)
}

/// Whether an anchor is one of these.
fn is_among(anchor: &Record, anchors: &[Record]) -> bool
    ensures { result ≡ list_any (same_record anchor.now) anchors.now }
{
    anchors.iter().any(|one| is_same(anchor, one))
}

/// Whether two records are the same, their owners' letters and their TTLs too.
fn is_same(one: &Record, other: &Record) -> bool
    ensures { result ≡ same_record one.now other.now }
{
    has_owner_of(one, other)
        && one.class() == other.class()
        && one.rtype() == other.rtype()
        && one.ttl() == other.ttl()
        && *one.rdata().octets() == *other.rdata().octets()
}

/// Whether two records have one owner, its letters too.
#[tactic(auto, using(dsec_spec::proofs::CanonicalNames::same_place_decides))]
fn has_owner_of(one: &Record, other: &Record) -> bool
    ensures { result ≡ same_place one.now.owner other.now.owner }
{
    one.owner().is_identical(other.owner())
}
