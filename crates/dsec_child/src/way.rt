//! What admits a key of a zone's key set: an anchor, or a DS record (RFC 4035 5, 5.2).

ghost use Rattle.std.specs.Prelude.{◌≡◌, ◌<◌, ℕ, Some, position};
ghost use Rattle.std.specs.Str.{bytes_eq};
ghost use Rattle.dsec_spec.specs.Groups as groups;
ghost use Rattle.dsec_spec.specs.Groups.{set_in};
ghost use Rattle.dsec_spec.specs.KeySearch as search;
ghost use Rattle.dsec_spec.specs.Names.{place, same_place};
ghost use Rattle.dsec_spec.specs.Numbers.{DNSKEY};
ghost use Rattle.dsec_wire.specs.DataViews.{ds_view};
ghost use Rattle.dsec_link.specs.KeySearches.{search_view};
ghost use Rattle.dsec_nodes.specs.Admission.{anchor_search, own_key, search_for};
ghost use Rattle.dsec_nodes.specs.ByDs.{is_supported as supported};
ghost use Rattle.dsec_node.specs.KeyTags.{AreTags};
ghost use Rattle.dsec_child.specs.Ways.{supported_search};

use crate::search::search_key;
use dsec_group::{Group, Steps};
use dsec_link::{KeySearch, supported_algorithm, supported_digest};
use dsec_name::Name;
use dsec_number::{Class, Rtype};
use dsec_wire::{Ds, Record};
use std::marker::Brand;
use std::sync::ledger::{Blank, Ledger};

/// What admits a key of a key set.
pub(crate) trait Way {
    /// The key of the set that it admits, where so many keys of a DS record's algorithm and tag are tried.
    ghost picks: { ℕ → groups.Group → Self → search.KeySearch };

    /// The key of the set that it admits, where the tags of the set's keys are these.
    fn pick(&self, most: u8, group: &Group, tags: &[u16]) -> KeySearch
        requires typed { group.now.rtype ≡ DNSKEY }
        requires tags { AreTags tags.now (set_in group.now).datas }
        ensures { search_view result ≡ picks most group.now self.now };
}

impl Way for Record {
    ghost picks = { λ most group anchor. anchor_search most group anchor };

    fn pick(&self, most: u8, group: &Group, tags: &[u16]) -> KeySearch {
        if !is_same(self.owner(), group.owner()) || self.class() != Class::IN {
            return KeySearch::NotFound;
        }
        if self.rtype() == Rtype::DNSKEY {
            return with_data(group, self);
        }
        match self.rdata().ds() {
            Some(ds) => spoken_by(most, group, tags, &ds),
            None => KeySearch::NotFound,
        }
    }
}

impl<'a> Way for Ds<'a> {
    ghost picks = { λ most group ds. supported_search most group (ds_view ds) };

    fn pick(&self, most: u8, group: &Group, tags: &[u16]) -> KeySearch {
        if is_supported(self) {
            spoken_by(most, group, tags, self)
        } else {
            KeySearch::NotFound
        }
    }
}

/// Whether two names are one, ASCII case aside (RFC 4343 3).
pub(crate) fn is_same(a: &Name, b: &Name) -> bool
    ensures { result ≡ same_place (place a.now) (place b.now) }
{
    *a == *b
}

/// Whether a DS record is of a known algorithm and digest (RFC 4035 5.2).
pub(crate) fn is_supported(ds: &Ds<'_>) -> bool
    ensures { result ≡ supported (Some (ds_view ds.now)) }
{
    supported_algorithm(ds.algorithm) && supported_digest(ds.digest_type)
}

/// The key of a set that has the data of an anchor.
fn with_data(group: &Group, anchor: &Record) -> KeySearch
    ensures { search_view result ≡ own_key (position (λ one. bytes_eq one.rdata anchor.now.rdata) group.now.records) }
{
    match position_of(group.rr_set(), anchor) {
        Some(index) => KeySearch::FoundAt(index),
        None => KeySearch::NotFound,
    }
}

/// The index of the first record that has the data of another.
fn position_of(records: &[Record], other: &Record) -> Option<usize>
    ensures { result ≡ position (λ one. bytes_eq one.rdata other.now.rdata) records.now }
{
    let octets = other.rdata().octets();
    records
        .iter()
        .position(|one| *one.rdata().octets() == *octets)
}

/// The first key of a set that a DS record speaks of: its digests are counted on a ledger of their own.
fn spoken_by(most: u8, group: &Group, tags: &[u16], ds: &Ds<'_>) -> KeySearch
    requires typed { group.now.rtype ≡ DNSKEY }
    requires tags { AreTags tags.now (set_in group.now).datas }
    ensures { search_view result ≡ search_for most group.now (Some (ds_view ds.now)) }
{
    counted_search::<Brand>(most, group, tags, ds, Blank::new(1))
}

/// The same, on the ledger that the blank opens.
fn counted_search<L: Ledger>(
    most: u8,
    group: &Group,
    tags: &[u16],
    ds: &Ds<'_>,
    blank: Blank,
) -> KeySearch
    requires typed { group.now.rtype ≡ DNSKEY }
    requires tags { AreTags tags.now (set_in group.now).datas }
    requires name { blank.name ≡ L.name }
    requires parts { blank.parts ≡ L.parts }
    requires shared { 0 < L.parts }
    ensures { search_view result ≡ search_for most group.now (Some (ds_view ds.now)) }
{
    let mut steps = Steps::<L>::begin(blank);
    search_key::<L>(
        ds,
        group.owner(),
        group.rr_set(),
        Some(tags),
        usize::from(most),
        &mut steps,
    )
}
