//! The signatures of a zone, and why there are none.

use crate::lines::{ADDRESS, KEY, NS, SOA, ZONE, are_lines, keys, owners_of, zone};
use dsec_lines::name;
use dsec_name::Name;
use dsec_number::Timestamp;
use dsec_records::{SortedRecords, is_of_one_class};
use dsec_sign::{
    GenerateRrsigConfig, SigningError, SigningKey, StandInKey, sign_sorted_zone_records,
};
use dsec_wire::Record;
use std::alloc::Global;
use std::process::Abort;

/// What a row shows, a zone, keys, and the signatures from the moment 0 to 10.
type Row = (
    &'static str,
    &'static [&'static str],
    &'static [&'static str],
    &'static [&'static str],
);

#[rattlefmt::skip]
const ROWS: [Row; 4] = [
    (
        "two keys",
        &ZONE,
        &["example. 3600 IN DNSKEY 257 3 13 AQI=", "example. 3600 IN DNSKEY 256 3 13 AQM="],
        &["example. 3600 CLASS1 TYPE46 \\# 59 00020d0100000e100000000a000000000510076578616d706c6500006491c5242c842e1afc9a9ed551c47149ade482228c85a263d95b72e6ea2a7f", "example. 3600 CLASS1 TYPE46 \\# 59 00020d0100000e100000000a000000000510076578616d706c6500bd6c2907314b7faf92cd02b19c928fabd27b1eb28d0d534c8947eb24403fc7c7", "example. 3600 CLASS1 TYPE46 \\# 59 00060d0100000e100000000a000000000510076578616d706c65007457e3a65feb275e49b92dba9f2efa315224984b79a255cee66902a1b25a266c", "example. 3600 CLASS1 TYPE46 \\# 59 00060d0100000e100000000a000000000510076578616d706c65003a98179e506079a7af47dcf6309746451e1b7e46321e39b7a73f9b04490d67ff", "ns.example. 3600 CLASS1 TYPE46 \\# 59 00010d0200000e100000000a000000000510076578616d706c650099ba6c43ba2777ee5d9d5d90f98fbd2160e02da35ab80a75b16f4facd93836f3", "ns.example. 3600 CLASS1 TYPE46 \\# 59 00010d0200000e100000000a000000000510076578616d706c650031e22f0df9639fe86dacfdfa27984a1b743a9ccdd9bbb8799c685209d0b056b4"],
    ),
    (
        "no key",
        &ZONE,
        &[],
        &[],
    ),
    (
        "a zone that is signed, with its keys",
        &["example. 3600 CLASS1 TYPE2 \\# 12 026e73076578616d706c6500", "example. 3600 CLASS1 TYPE6 \\# 46 026e73076578616d706c650004686f7374076578616d706c65000000000100000e1000000258000151800000012c", "example. 3600 CLASS1 TYPE46 \\# 59 00020d0100000e1000000005000000000510076578616d706c65005f39aec372f3dee78c2ff37836ee8d0715577d91d9dc387d843da01ab5bc697e", "example. 3600 CLASS1 TYPE46 \\# 59 00060d0100000e1000000005000000000510076578616d706c65002e8b61609e8db44125f5a31fcb6e7e58caf4a113d0847595356276d3938a7eb1", "example. 300 CLASS1 TYPE46 \\# 59 002f0d010000012c00000005000000000510076578616d706c650016240a0013088aba192dbca475458c7b418af842a0d085940214e9062a789b38", "example. 3600 CLASS1 TYPE46 \\# 59 00300d0100000e1000000005000000000510076578616d706c6500a0978c01d98b7128a7bd40b6a47c1dd40dff1632595ea4d4025f8b296923c512", "example. 300 CLASS1 TYPE47 \\# 21 026e73076578616d706c6500000722000000000380", "example. 3600 CLASS1 TYPE48 \\# 6 0101030d0102", "ns.example. 3600 CLASS1 TYPE1 \\# 4 c0000201", "ns.example. 3600 CLASS1 TYPE46 \\# 59 00010d0200000e1000000005000000000510076578616d706c6500693b233f23eeb695f849d88ea5cc9fe565dae238bd389dfc2b27649e7e274bb5", "ns.example. 300 CLASS1 TYPE46 \\# 59 002f0d020000012c00000005000000000510076578616d706c6500b4fa7519c303dc2961f3298ef5d5f9ee78ba28422a123781c320c6ecafa85fc9", "ns.example. 300 CLASS1 TYPE47 \\# 17 076578616d706c65000006400000000003"],
        &["example. 3600 IN DNSKEY 257 3 13 AQI="],
        &["example. 3600 CLASS1 TYPE46 \\# 59 00020d0100000e100000000a000000000510076578616d706c6500006491c5242c842e1afc9a9ed551c47149ade482228c85a263d95b72e6ea2a7f", "example. 3600 CLASS1 TYPE46 \\# 59 00060d0100000e100000000a000000000510076578616d706c65007457e3a65feb275e49b92dba9f2efa315224984b79a255cee66902a1b25a266c", "example. 300 CLASS1 TYPE46 \\# 59 002f0d010000012c0000000a000000000510076578616d706c6500c17d9cdf12f0615182bb1d3e7bb6c1bbbca16517520d172ce85d8c62c657438e", "ns.example. 3600 CLASS1 TYPE46 \\# 59 00010d0200000e100000000a000000000510076578616d706c650099ba6c43ba2777ee5d9d5d90f98fbd2160e02da35ab80a75b16f4facd93836f3", "ns.example. 300 CLASS1 TYPE46 \\# 59 002f0d020000012c0000000a000000000510076578616d706c65003425660593f54eb4ee5203315b33fca76f1b05f578e7e7563a7890e03e8b7f2c"],
    ),
    (
        "names that sort before and after the zone's",
        &["example. 60 IN SOA . . 1 2 3 4 5", "example. 60 IN NS a.", "example. 60 IN NS b.", "in_zone.example. 60 IN A 192.0.2.1", "early_sorting_glue. 60 IN A 192.0.2.2", "late_sorting_glue. 60 IN A 192.0.2.3"],
        &["example. 3600 IN DNSKEY 257 3 13 AQI="],
        &["example. 60 CLASS1 TYPE46 \\# 59 00020d010000003c0000000a000000000510076578616d706c65001757fb56b477ca01f3528d70413e95b2f9d1887f804634fb8a3dc7d87ba38ba7", "example. 60 CLASS1 TYPE46 \\# 59 00060d010000003c0000000a000000000510076578616d706c65005b31fa7b6792392b32d84b6e9a3f2385ea9f56ce0ea0e13e278b874273f941f3", "in_zone.example. 60 CLASS1 TYPE46 \\# 59 00010d020000003c0000000a000000000510076578616d706c6500f0eb3867d931ac94509e27dea990fbd3054ee99ee0af8ca862307f283d37a078"],
    ),
];

/// The signatures of a zone of one class at `example.`, for a period that begins at 0.
fn signatures(
    alloc: Global,
    apex: &Name,
    zone: &SortedRecords,
    keys: &mut [SigningKey<StandInKey>],
    expiration: u32,
) -> Option<Result<Vec<Record>, SigningError>> {
    let records = zone.as_slice();
    if !is_of_one_class(records) {
        return None;
    }
    let config = GenerateRrsigConfig::new(Timestamp::from_int(0), Timestamp::from_int(expiration));
    let found = sign_sorted_zone_records(alloc, apex, owners_of(records), keys, &config);
    Some(found)
}

fn row_holds(alloc: Global, row: &Row) -> bool {
    let (Some(apex), Some(zone), Some(mut keys)) = (
        name(alloc, "example."),
        zone(alloc, row.1),
        keys(alloc, row.2),
    ) else {
        return false;
    };
    match signatures(alloc, &apex, &zone, &mut keys, 10) {
        Some(Ok(found)) => are_lines(alloc, &found, row.3),
        _ => false,
    }
}

fn assert_rows(rt: &impl Abort, alloc: Global, rows: &[Row]) {
    for row in rows {
        let shows = row.0;
        assert!(rt; row_holds(alloc, row), "{shows}");
    }
}

#[test]
fn zones(rt: HostRuntime) {
    assert_rows(&rt, rt.alloc(), &ROWS);
}

/// What a row shows, a record besides those of the zone, keys, the end of the period, and the refusal, if there is one.
type Refused = (
    &'static str,
    &'static str,
    &'static [&'static str],
    u32,
    Option<SigningError>,
);

const OTHER_TTL: &str = "ns.example. 60 IN A 192.0.2.2";

const SAME: &str = "ns.example. 3600 IN A 192.0.2.2";

/// A period that ends 2^31 seconds after the moment 0.
const NONE: u32 = 2147483648;

#[rattlefmt::skip]
const REFUSED: [Refused; 6] = [
    ("TTLs that differ", OTHER_TTL, &[KEY], 10, Some(SigningError::MultipleTtlValues)),
    ("the same without a key", OTHER_TTL, &[], 10, Some(SigningError::MultipleTtlValues)),
    ("TTLs go before the period", OTHER_TTL, &[KEY], NONE, Some(SigningError::MultipleTtlValues)),
    ("a period that is none without a key", SAME, &[], NONE, None),
    ("TTLs that differ in signatures", SIGNATURES, &[], 10, None),
    ("TTLs that differ in records of several types", "ns.example. 60 IN TXT x", &[KEY], 10, None),
];

/// A signature, whose TTL isn't that of the address.
const SIGNATURES: &str =
    "ns.example. 7 IN RRSIG \\# 27 00010d0200000e10000003e8000000000510076578616d706c6500";

fn is_refused(alloc: Global, row: &Refused) -> bool {
    let lines = [SOA, NS, ADDRESS, row.1];
    let (Some(apex), Some(zone), Some(mut keys)) = (
        name(alloc, "example."),
        zone(alloc, &lines),
        keys(alloc, row.2),
    ) else {
        return false;
    };
    match signatures(alloc, &apex, &zone, &mut keys, row.3) {
        Some(found) => found.err() == row.4,
        None => false,
    }
}

fn assert_refused(rt: &impl Abort, alloc: Global, rows: &[Refused]) {
    for row in rows {
        let shows = row.0;
        assert!(rt; is_refused(alloc, row), "{shows}");
    }
}

#[test]
fn refusals(rt: HostRuntime) {
    assert_refused(&rt, rt.alloc(), &REFUSED);
}
