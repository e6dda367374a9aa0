//! Record sets in both forms, records owner by owner, and records that are inserted.

ghost use Rattle.std.specs.Prelude.{IsTrue};
ghost use Rattle.dsec_sorted.specs.Sets.{AreWithin};

use crate::lines::{
    ADDRESS, are_lines, are_of_one_set, is_same, keys, owners_of, sorted_set_of, zone,
};
use dsec_lines::{name, record, records};
use dsec_number::{Rtype, Timestamp};
use dsec_records::{InsertError, Rrset, RrsetError, RtypeBitmap, SortedRecords, is_of_one_class};
use dsec_sign::Signable;
use dsec_wire::Record;
use std::alloc::Global;
use std::process::Abort;

/// What a row shows, records of one set, and the TTL of the first, or why they are no set.
type Row = (
    &'static str,
    &'static [&'static str],
    Result<u32, RrsetError>,
);

/// A signature over an address.
const SIGNATURE: &str =
    "a. 7 IN RRSIG \\# 27 00010d0200000e10000003e8000000000510076578616d706c6500";

/// The same with another TTL.
const LATER: &str = "a. 8 IN RRSIG \\# 27 00010d0200000e10000003e8000000000510076578616d706c6500";

#[rattlefmt::skip]
const SETS: [Row; 5] = [
    ("no record", &[], Err(RrsetError::EmptyRecordSlice)),
    ("one record", &["a. 60 IN A 192.0.2.1"], Ok(60)),
    ("letters of owners", &["a. 60 IN A 192.0.2.1", "A. 60 IN A 192.0.2.2"], Ok(60)),
    ("TTLs that differ", &["a. 60 IN A 192.0.2.1", "a. 60 IN A 192.0.2.2", "a. 61 IN A 192.0.2.3"], Err(RrsetError::MultipleTtlValues)),
    ("TTLs of signatures", &[SIGNATURE, LATER], Ok(7)),
];

/// Whether a set has this TTL and these records in this order.
fn is_set(set: &Rrset<'_>, ttl: u32, records: &[Record]) -> bool {
    let mut rest = set.iter();
    for one in records {
        let Some(found) = rest.next() else {
            return false;
        };
        if !is_same(found, one) {
            return false;
        }
    }
    rest.next().is_none() && set.ttl().as_secs() == ttl
}

/// Whether this comes of records of one set.
fn makes(records: &[Record], want: Result<u32, RrsetError>) -> bool {
    if !are_of_one_set(records) {
        return false;
    }
    match Rrset::new_from_owned(records) {
        Ok(set) => match want {
            Ok(ttl) => is_set(&set, ttl, records),
            Err(_) => false,
        },
        Err(error) => want == Err(error),
    }
}

fn row_holds(alloc: Global, row: &Row) -> bool {
    match records(alloc, row.1) {
        Some(records) => makes(&records, row.2),
        None => false,
    }
}

fn assert_rows(rt: &impl Abort, alloc: Global, rows: &[Row]) {
    for row in rows {
        let shows = row.0;
        assert!(rt; row_holds(alloc, row), "{shows}");
    }
}

#[test]
fn sets(rt: HostRuntime) {
    assert_rows(&rt, rt.alloc(), &SETS);
}

/// A set and its keys, and the signatures that it has in a zone at `example.`.
type Signed = (
    &'static str,
    &'static [&'static str],
    &'static [&'static str],
    &'static [&'static str],
);

#[rattlefmt::skip]
const SIGNED: [Signed; 5] = [
    ("one signature by each key", &["www.example. 60 IN A 192.0.2.1", "www.example. 60 IN A 192.0.2.2"], &["example. 3600 IN DNSKEY 257 3 13 AQI=", "example. 3600 IN DNSKEY 256 3 13 AQM="], &["www.example. 60 CLASS1 TYPE46 \\# 59 00010d020000003c0000000a000000000510076578616d706c6500592093755fa418c168182904b21f79d97ce8cf49594aff028323acf985b34f11", "www.example. 60 CLASS1 TYPE46 \\# 59 00010d020000003c0000000a000000000510076578616d706c6500323c118b523280913991e00e15570697d1021cd7713f029d32ddce852eed9773"]),
    ("keys at the apex", &["example. 60 IN DNSKEY 257 3 13 AQI="], &["example. 3600 IN DNSKEY 257 3 13 AQI="], &[]),
    ("a delegation", &["d.example. 60 IN NS a."], &["example. 3600 IN DNSKEY 257 3 13 AQI="], &[]),
    ("NS records at the apex", &["example. 60 IN NS a."], &["example. 3600 IN DNSKEY 257 3 13 AQI="], &["example. 60 CLASS1 TYPE46 \\# 59 00020d010000003c0000000a000000000510076578616d706c650089e832b730e3675caae024a6ad7974971b51ee54e2814829a0478265916ee770"]),
    ("outside the zone", &["other. 60 IN A 192.0.2.1"], &["example. 3600 IN DNSKEY 257 3 13 AQI="], &[]),
];

fn is_signed(alloc: Global, row: &Signed) -> bool {
    let (Some(apex), Some(records), Some(mut keys)) = (
        name(alloc, "example."),
        records(alloc, row.1),
        keys(alloc, row.2),
    ) else {
        return false;
    };
    let Some(set) = sorted_set_of(&records) else {
        return false;
    };
    let (inception, expiration) = (Timestamp::from_int(0), Timestamp::from_int(10));
    match set.sign(alloc, &apex, &mut keys, inception, expiration) {
        Ok(found) => are_lines(alloc, &found, row.3),
        Err(_) => false,
    }
}

fn assert_signed(rt: &impl Abort, alloc: Global, rows: &[Signed]) {
    for row in rows {
        let shows = row.0;
        assert!(rt; is_signed(alloc, row), "{shows}");
    }
}

#[test]
fn signatures(rt: HostRuntime) {
    assert_signed(&rt, rt.alloc(), &SIGNED);
}

/// Places among these records, and why they are no set, if they aren't: they aren't tested for being in order or there once.
#[rattlefmt::skip]
const PLACES: [(&[usize], Option<RrsetError>); 5] = [
    (&[1, 0], None),
    (&[2], None),
    (&[0, 1, 0], None),
    (&[], Some(RrsetError::EmptyRecordSlice)),
    (&[0, 2], Some(RrsetError::MultipleTtlValues)),
];

const CHOSEN: [&str; 3] = [
    "a. 60 IN A 192.0.2.1",
    "a. 60 IN A 192.0.2.2",
    "a. 61 IN A 192.0.2.3",
];

/// Whether all are places of records.
fn are_within(records: &[Record], places: &[usize]) -> bool
    ensures { IsTrue result → AreWithin records.now places.now }
{
    places.iter().all(|at| *at < records.len())
}

/// Whether a set has the records at these places, in their order.
fn is_set_at(set: &Rrset<'_>, records: &[Record], places: &[usize]) -> bool {
    let mut rest = set.iter();
    for at in places {
        let (Some(found), Some(one)) = (rest.next(), records.get(*at)) else {
            return false;
        };
        if !is_same(found, one) {
            return false;
        }
    }
    rest.next().is_none()
}

fn place_holds(records: &[Record], places: &[usize], want: Option<RrsetError>) -> bool {
    if !are_of_one_set(records) {
        return false;
    }
    if !are_within(records, places) {
        return false;
    }
    match Rrset::new_from_refs(records, places) {
        Ok(set) => want.is_none() && is_set_at(&set, records, places),
        Err(error) => want == Some(error),
    }
}

fn assert_places(rt: &impl Abort, records: &[Record], rows: &[(&[usize], Option<RrsetError>)]) {
    for (places, want) in rows {
        assert!(rt; place_holds(records, places, *want));
    }
}

#[test]
fn sets_at_places(rt: HostRuntime) {
    match records(rt.alloc(), &CHOSEN) {
        Some(records) => assert_places(&rt, &records, &PLACES),
        None => panic!(rt; "no records"),
    }
}

/// A name, and how many records of a zone of five owners stand from the first at or below it on.
const SKIPS: [(&str, usize); 6] = [
    ("example.", 6),
    (".", 6),
    ("b.example.", 4),
    ("ent.example.", 1),
    ("B.Example.", 4),
    ("zzz.", 0),
];

const OWNERS: [&str; 6] = [
    "example. 60 IN A 192.0.2.1",
    "a.example. 60 IN A 192.0.2.1",
    "b.example. 60 IN A 192.0.2.1",
    "B.example. 60 IN TXT x",
    "a.b.example. 60 IN A 192.0.2.1",
    "x.ent.example. 60 IN A 192.0.2.1",
];

fn is_left(alloc: Global, zone: &SortedRecords, base: &str, left: usize) -> bool {
    let records = zone.as_slice();
    let Some(base) = name(alloc, base) else {
        return false;
    };
    if !is_of_one_class(records) {
        return false;
    }
    let mut rest = owners_of(records);
    rest.skip_before(&base);
    rest.as_slice().len() == left
}

fn assert_left(rt: &impl Abort, alloc: Global, zone: &SortedRecords, rows: &[(&str, usize)]) {
    for (base, left) in rows {
        assert!(rt; is_left(alloc, zone, base, *left), "{base}");
    }
}

#[test]
fn records_from_a_name_on(rt: HostRuntime) {
    match zone(rt.alloc(), &OWNERS) {
        Some(zone) => assert_left(&rt, rt.alloc(), &zone, &SKIPS),
        None => panic!(rt; "no zone"),
    }
}

/// Whether the owners of a zone have so many records each.
fn has_runs(zone: &SortedRecords, sizes: &[usize]) -> bool {
    let records = zone.as_slice();
    if !is_of_one_class(records) {
        return false;
    }
    let mut rest = owners_of(records);
    for size in sizes {
        match rest.next() {
            Some(owner) => {
                if owner.records.len() != *size {
                    return false;
                }
            }
            None => return false,
        }
    }
    rest.next().is_none()
}

#[test]
fn records_by_owner(rt: HostRuntime) {
    assert!(rt;
        match zone(rt.alloc(), &OWNERS) {
            Some(zone) => has_runs(&zone, &[1, 1, 2, 1, 1]),
            None => false,
        }
    );
}

/// Octets of a bitmap, a type, and whether it is there. The last have an empty block, a block of 33 octets, one that is cut off, and an
/// octet behind a block: no type is there.
#[rattlefmt::skip]
const BITMAPS: [(&[u8], u16, bool); 14] = [
    (b"", 1, false),
    (b"\x00\x01\x40", 1, true),
    (b"\x00\x01\x40", 2, false),
    (b"\x00\x01\x40", 9, false),
    (b"\x00\x01\x40", 257, false),
    (b"\x00\x06\x40\x01\x00\x00\x00\x03", 47, true),
    (b"\x00\x06\x40\x01\x00\x00\x00\x03", 15, true),
    (b"\x00\x01\x40\x04\x1b\x00\x00\x00\x00\x00\x00\x00\x00\x00\x00\x00\x00\x00\x00\x00\x00\x00\x00\x00\x00\x00\x00\x00\x00\x00\x00\x20", 1234, true),
    (b"\xff\x01\x80", 65280, true),
    (b"\x00\x00", 1, false),
    (b"\x00\x01\x40\x01\x00", 1, false),
    (b"\x00\x21\x40", 1, false),
    (b"\x00\x02\x40", 1, false),
    (b"\x00\x01\x40\x01", 1, false),
];

fn assert_bitmaps(rt: &impl Abort, rows: &[(&[u8], u16, bool)]) {
    for (octets, number, want) in rows {
        let bitmap = RtypeBitmap { octets };
        let found = bitmap.contains(Rtype::from_int(*number));
        assert!(rt; found == *want, "{number}");
    }
}

#[test]
fn types_of_bitmaps(rt: HostRuntime) {
    assert_bitmaps(&rt, &BITMAPS);
}

/// Whether a record is inserted once, and given back as a duplicate, whose letters don't count, the second time.
fn inserts_once(alloc: Global) -> bool {
    let mut zone = SortedRecords::new(alloc);
    let (Some(first), Some(second)) = (
        record(alloc, ADDRESS),
        record(alloc, "NS.Example. 7 IN A 192.0.2.1"),
    ) else {
        return false;
    };
    let is_first = zone.insert(first).is_ok();
    match zone.insert(second) {
        Err(InsertError::Duplicate(given)) => {
            is_first && given.ttl().as_secs() == 7 && are_lines(alloc, zone.as_slice(), &[ADDRESS])
        }
        _ => false,
    }
}

#[test]
fn a_duplicate_is_given_back(rt: HostRuntime) {
    assert!(rt; inserts_once(rt.alloc()));
}
