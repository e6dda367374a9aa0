//! Zones and keys as lines of zone text, and records that are compared with lines.

ghost use Rattle.std.specs.Prelude.{◌≡◌, IfSome, IsTrue};
ghost use Rattle.std.proofs.Math.Bool.{not};
ghost use Rattle.std.specs.List.{list_any};
ghost use Rattle.dsec_spec.specs.CanonicalRecords.{AreOfOneClass, IsCanonical};
ghost use Rattle.dsec_spec.specs.SignedZones.{of_one_set};
ghost use Rattle.dsec_sorted.specs.IterViews.{left_of};
ghost use Rattle.dsec_sorted.specs.SetViews.{members_of};
ghost use Rattle.dsec_sorted.specs.Sets.{AreOfOneSet};

use dsec_lines::{name, record, records};
use dsec_records::{RecordsIter, Rrset, SortedRecords, is_sorted_canonical};
use dsec_sign::{SigningKey, StandInKey};
use dsec_wire::Record;
use std::alloc::Global;

/// A zone's key, of the tag 1296.
pub(crate) const KEY: &str = "example. 3600 IN DNSKEY 257 3 13 AQI=";

/// A zone of three sets.
pub(crate) const ZONE: [&str; 3] = [SOA, NS, ADDRESS];

pub(crate) const SOA: &str = "example. 3600 IN SOA ns.example. host.example. 1 3600 600 86400 300";

pub(crate) const NS: &str = "example. 3600 IN NS ns.example.";

pub(crate) const ADDRESS: &str = "ns.example. 3600 IN A 192.0.2.1";

/// The records of lines in canonical order, of duplicates the first.
pub(crate) fn zone(alloc: Global, lines: &[&str]) -> Option<SortedRecords> {
    let made = records(alloc, lines)?;
    let mut zone = SortedRecords::new(alloc);
    match zone.extend(made) {
        Ok(()) => Some(zone),
        Err(_) => None,
    }
}

/// The same of several lines and others.
pub(crate) fn zone_and(alloc: Global, lines: &[&str], others: &[&str]) -> Option<SortedRecords> {
    let mut zone = zone(alloc, lines)?;
    let others = records(alloc, others)?;
    match zone.extend(others) {
        Ok(()) => Some(zone),
        Err(_) => None,
    }
}

/// The key of the stand-in that a DNSKEY record's line says.
pub(crate) fn stand_in(alloc: Global, line: &str) -> Option<StandInKey> {
    let made = record(alloc, line)?;
    let Some(dnskey) = made.rdata().dnskey() else {
        return None;
    };
    StandInKey::from_dnskey(&dnskey).ok()
}

/// The same as a key that signs for `example.`.
pub(crate) fn key(alloc: Global, line: &str) -> Option<SigningKey<StandInKey>> {
    let inner = stand_in(alloc, line)?;
    let owner = name(alloc, "example.")?;
    Some(SigningKey::new(owner, 257, inner))
}

/// The keys of lines.
pub(crate) fn keys(alloc: Global, lines: &[&str]) -> Option<Vec<SigningKey<StandInKey>>> {
    let mut made = Vec::new(alloc);
    for line in lines {
        let one = key(alloc, line)?;
        if made.push(one).is_err() {
            return None;
        }
    }
    Some(made)
}

/// Whether two records are the same, in everything but the letters of their owners.
pub(crate) fn is_same(found: &Record, want: &Record) -> bool {
    found.owner() == want.owner()
        && found.class() == want.class()
        && found.rtype() == want.rtype()
        && found.ttl() == want.ttl()
        && found.rdata().octets().as_slice() == want.rdata().octets().as_slice()
}

/// Whether a record is that of a line.
pub(crate) fn is_line(alloc: Global, found: &Record, want: &str) -> bool {
    match record(alloc, want) {
        Some(want) => is_same(found, &want),
        None => false,
    }
}

/// Whether records are these, in this order.
pub(crate) fn are_same(found: &[Record], want: &[Record]) -> bool {
    let size = found.len();
    if size != want.len() {
        return false;
    }
    for i in 0..size {
        if !is_same(&found[i], &want[i]) {
            return false;
        }
    }
    true
}

/// Whether records are those of lines, in this order.
pub(crate) fn are_lines(alloc: Global, found: &[Record], want: &[&str]) -> bool {
    match records(alloc, want) {
        Some(want) => are_same(found, &want),
        None => false,
    }
}

/// Goes over records in canonical order, of one class, owner by owner.
pub(crate) fn owners_of<'a>(records: &'a [Record]) -> RecordsIter<'a>
    requires canonical { IsCanonical records.now }
    requires class { AreOfOneClass records.now }
    ensures { left_of result ≡ records.now }
{
    RecordsIter::new_from_owned(records)
}

/// Whether records are of one owner, class and type.
pub(crate) fn are_of_one_set(records: &[Record]) -> bool
    ensures { IsTrue result → AreOfOneSet records.now }
{
    let Some((first, others)) = records.split_first() else {
        return true;
    };
    let has_other = has_other(first, others);
    !has_other
}

/// The set that records are, if they are one.
pub(crate) fn set_of<'a>(records: &'a [Record]) -> Option<Rrset<'a>>
    ensures { IfSome result (λ set. members_of set ≡ records.now) }
{
    if !are_of_one_set(records) {
        return None;
    }
    match Rrset::new_from_owned(records) {
        Ok(set) => Some(set),
        Err(_) => None,
    }
}

/// The set that records are, if they are one in canonical order.
pub(crate) fn sorted_set_of<'a>(records: &'a [Record]) -> Option<Rrset<'a>>
    ensures { IfSome result (λ set. IsCanonical (members_of set)) }
{
    if !is_sorted_canonical(records) {
        return None;
    }
    match set_of(records) {
        Some(set) => Some(set),
        None => None,
    }
}

/// Whether one of the records is of another owner, class or type than the first.
fn has_other(first: &Record, others: &[Record]) -> bool
    ensures { result ≡ list_any (λ r. not (of_one_set first.now r)) others.now }
{
    others.iter().any(|one| differs(first, one))
}

/// Whether a record is of another owner, class or type.
fn differs(first: &Record, one: &Record) -> bool
    ensures { result ≡ not (of_one_set first.now one.now) }
{
    !is_of_set(first, one)
}

/// Whether two records are of one owner, class and type.
fn is_of_set(first: &Record, one: &Record) -> bool
    ensures { result ≡ of_one_set first.now one.now }
{
    first.owner() == one.owner() && first.class() == one.class() && first.rtype() == one.rtype()
}
