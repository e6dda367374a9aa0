//! The calls that sign whole zones, in place and into other records.

use crate::lines::{ADDRESS, KEY, NS, SOA, ZONE, are_lines, are_same, keys, zone, zone_and};
use dsec_lines::name;
use dsec_name::Name;
use dsec_number::Timestamp;
use dsec_records::{DenialConfig, Nsec3Config, Nsec3HashError, SortedRecords, is_of_one_class};
use dsec_sign::{SignRaw, SignableZoneInOut, SigningConfig, SigningError, SigningKey, sign_zone};
use dsec_wire::Record;
use std::alloc::Global;
use std::process::Abort;

/// The chain that is asked for.
#[derive(Clone, Copy)]
pub(crate) enum Denial {
    Nsec,
    Nsec3,
    Present,
}

/// How a zone is signed for a period that begins at the moment 0.
pub(crate) fn config(denial: Denial, expiration: u32) -> SigningConfig {
    let denial = match denial {
        Denial::Nsec => DenialConfig::Nsec,
        Denial::Nsec3 => DenialConfig::Nsec3(Nsec3Config::default()),
        Denial::Present => DenialConfig::AlreadyPresent,
    };
    SigningConfig::new(
        denial,
        Timestamp::from_int(0),
        Timestamp::from_int(expiration),
    )
}

/// Signs a zone in place by the call for both forms; none where it is of several classes.
pub(crate) fn sign_here<I: SignRaw>(
    alloc: Global,
    apex: &Name,
    zone: &mut SortedRecords,
    config: &SigningConfig,
    keys: &mut [SigningKey<I>],
) -> Option<Result<(), SigningError>> {
    if !is_of_one_class(zone.as_slice()) {
        return None;
    }
    let place: SignableZoneInOut<'_, SortedRecords, SortedRecords> = SignableZoneInOut::SignInPlace(
        zone,
    );
    Some(sign_zone(alloc, apex, place, config, keys))
}

/// Signs a zone into other records by the same call; none where it is of several classes.
pub(crate) fn sign_there<I: SignRaw>(
    alloc: Global,
    apex: &Name,
    zone: &SortedRecords,
    out: &mut Vec<Record>,
    config: &SigningConfig,
    keys: &mut [SigningKey<I>],
) -> Option<Result<(), SigningError>> {
    if !is_of_one_class(zone.as_slice()) {
        return None;
    }
    let place = SignableZoneInOut::SignInto(zone, out);
    Some(sign_zone(alloc, apex, place, config, keys))
}

/// What a row shows, the chain that is asked for, and the records that are added to the zone of three sets.
type Row = (&'static str, Denial, &'static [&'static str]);

#[rattlefmt::skip]
const ROWS: [Row; 3] = [
    (
        "NSEC: two records of the chain, and five signatures",
        Denial::Nsec,
        &["example. 3600 CLASS1 TYPE46 \\# 59 00020d0100000e100000000a000000000510076578616d706c6500006491c5242c842e1afc9a9ed551c47149ade482228c85a263d95b72e6ea2a7f", "example. 3600 CLASS1 TYPE46 \\# 59 00060d0100000e100000000a000000000510076578616d706c65007457e3a65feb275e49b92dba9f2efa315224984b79a255cee66902a1b25a266c", "example. 300 CLASS1 TYPE46 \\# 59 002f0d010000012c0000000a000000000510076578616d706c6500faeae8dfdccfb0a33aec959c49b773f7840e9efc05d96da477ae3b0e34e00b5a", "example. 300 CLASS1 TYPE47 \\# 20 026e73076578616d706c65000006220000000003", "ns.example. 3600 CLASS1 TYPE46 \\# 59 00010d0200000e100000000a000000000510076578616d706c650099ba6c43ba2777ee5d9d5d90f98fbd2160e02da35ab80a75b16f4facd93836f3", "ns.example. 300 CLASS1 TYPE46 \\# 59 002f0d020000012c0000000a000000000510076578616d706c65003425660593f54eb4ee5203315b33fca76f1b05f578e7e7563a7890e03e8b7f2c", "ns.example. 300 CLASS1 TYPE47 \\# 17 076578616d706c65000006400000000003"],
    ),
    (
        "NSEC3: three of the chain, and six",
        Denial::Nsec3,
        &["example. 3600 CLASS1 TYPE46 \\# 59 00020d0100000e100000000a000000000510076578616d706c6500006491c5242c842e1afc9a9ed551c47149ade482228c85a263d95b72e6ea2a7f", "example. 3600 CLASS1 TYPE46 \\# 59 00060d0100000e100000000a000000000510076578616d706c65007457e3a65feb275e49b92dba9f2efa315224984b79a255cee66902a1b25a266c", "example. 300 CLASS1 TYPE46 \\# 59 00330d010000012c0000000a000000000510076578616d706c65007e9fbfe4013b440c84c79e488f830fd1b8c7bd0fb9b76bcb7ed643d1927a2963", "example. 300 CLASS1 TYPE51 \\# 5 0100000000", "3msev9usmd4br9s97v51r2tdvmr9iqo1.example. 300 CLASS1 TYPE46 \\# 59 00320d020000012c0000000a000000000510076578616d706c6500811234f6a51d368d6fca78db45ad86ae78f95104f1a9ec1afbd25e0d12fb0ca2", "3msev9usmd4br9s97v51r2tdvmr9iqo1.example. 300 CLASS1 TYPE50 \\# 35 010000000014a5d8b42b992121318793fc8bc125a8d113058c1b000722000000000210", "kncb8asp44gj31sjvi5s29d8q49gb30r.example. 300 CLASS1 TYPE46 \\# 59 00320d020000012c0000000a000000000510076578616d706c6500cf755d501fff45e5b1fb99bb3450c604eec1986ec4e21e922da736eccb013b6f", "kncb8asp44gj31sjvi5s29d8q49gb30r.example. 300 CLASS1 TYPE50 \\# 34 0100000000141db8efa7dcb348bda7893fca1d8badfdb6996b010006400000000002", "ns.example. 3600 CLASS1 TYPE46 \\# 59 00010d0200000e100000000a000000000510076578616d706c650099ba6c43ba2777ee5d9d5d90f98fbd2160e02da35ab80a75b16f4facd93836f3"],
    ),
    (
        "no chain: three signatures",
        Denial::Present,
        &["example. 3600 CLASS1 TYPE46 \\# 59 00020d0100000e100000000a000000000510076578616d706c6500006491c5242c842e1afc9a9ed551c47149ade482228c85a263d95b72e6ea2a7f", "example. 3600 CLASS1 TYPE46 \\# 59 00060d0100000e100000000a000000000510076578616d706c65007457e3a65feb275e49b92dba9f2efa315224984b79a255cee66902a1b25a266c", "ns.example. 3600 CLASS1 TYPE46 \\# 59 00010d0200000e100000000a000000000510076578616d706c650099ba6c43ba2777ee5d9d5d90f98fbd2160e02da35ab80a75b16f4facd93836f3"],
    ),
];

/// Whether these records are made where they go into a list without any.
fn goes_there(alloc: Global, row: &Row) -> bool {
    let (Some(apex), Some(zone), Some(mut keys)) = (
        name(alloc, "example."),
        zone(alloc, &ZONE),
        keys(alloc, &[KEY]),
    ) else {
        return false;
    };
    let mut out = Vec::new(alloc);
    let config = config(row.1, 10);
    sign_there(alloc, &apex, &zone, &mut out, &config, &mut keys) == Some(Ok(()))
        && are_lines(alloc, &out, row.2)
}

/// Whether they are added where the zone is signed in place, so many times.
fn goes_here(alloc: Global, row: &Row, times: u8) -> bool {
    let (Some(apex), Some(mut zone), Some(want), Some(mut keys)) = (
        name(alloc, "example."),
        zone(alloc, &ZONE),
        zone_and(alloc, &ZONE, row.2),
        keys(alloc, &[KEY]),
    ) else {
        return false;
    };
    let config = config(row.1, 10);
    for _ in 0..times {
        if sign_here(alloc, &apex, &mut zone, &config, &mut keys) != Some(Ok(())) {
            return false;
        }
    }
    are_same(zone.as_slice(), want.as_slice())
}

fn assert_rows(rt: &impl Abort, alloc: Global, rows: &[Row]) {
    for row in rows {
        let shows = row.0;
        assert!(rt; goes_there(alloc, row), "{shows}");
        assert!(rt; goes_here(alloc, row, 1), "{shows}, in place");
    }
}

#[test]
fn zones(rt: HostRuntime) {
    assert_rows(&rt, rt.alloc(), &ROWS);
}

/// A zone by NSEC that is signed again by the same key stays as it is.
#[test]
fn signed_again(rt: HostRuntime) {
    assert!(rt; goes_here(rt.alloc(), &ROWS[0], 2));
}

/// What a row shows, the apex, the zone's records, the chain that is asked for, the period's end, why the zone isn't signed (none: for
/// the period), and what is added nevertheless.
type Refused = (
    &'static str,
    &'static str,
    &'static [&'static str],
    Denial,
    u32,
    Option<SigningError>,
    &'static [&'static str],
);

const LONG: &str =
    "lllllllllllllllllllllllllllllllllllllllllllllllllllllll.lllllllllllllllllllllllllllllllllllllllllllllllllllllll.lllllllllllllllllllllllllllllllllllllllllllllllllllllll.kkkkkkkkkkkkkkkkkkkkkkkkkkkkkkkkkkkkkkkkkkkkkkkkkkkkk.";

const CHAIN: &[&str] = &[
    "example. 300 CLASS1 TYPE47 \\# 20 026e73076578616d706c65000006220000000003",
    "ns.example. 300 CLASS1 TYPE47 \\# 17 076578616d706c65000006400000000003",
];

/// A period that ends 2^31 seconds after it begins.
const NONE: u32 = 2147483648;

#[rattlefmt::skip]
const REFUSED: [Refused; 6] = [
    ("no SOA record", "example.", &[NS, OTHER], Denial::Nsec, NONE, Some(SigningError::SoaRecordCouldNotBeDetermined), &[]),
    ("the same by NSEC3", "example.", &[NS, OTHER], Denial::Nsec3, NONE, Some(SigningError::SoaRecordCouldNotBeDetermined), &[]),
    ("an apex that is too long for NSEC3", LONG, &[LONG_SOA], Denial::Nsec3, NONE, Some(SigningError::Nsec3HashingError(Nsec3HashError::Nsec3NameTooLong)), &[]),
    ("TTLs that differ", "example.", &[SOA, NS, ADDRESS, OTHER], Denial::Nsec, NONE, Some(SigningError::MultipleTtlValues), CHAIN),
    ("a period that is none", "example.", &ZONE, Denial::Nsec, NONE, None, CHAIN),
    ("a period that is none, without a chain", "example.", &ZONE, Denial::Present, NONE, None, &[]),
];

/// Another address, with another TTL.
const OTHER: &str = "ns.example. 60 IN A 192.0.2.2";

const LONG_SOA: &str =
    "lllllllllllllllllllllllllllllllllllllllllllllllllllllll.lllllllllllllllllllllllllllllllllllllllllllllllllllllll.lllllllllllllllllllllllllllllllllllllllllllllllllllllll.kkkkkkkkkkkkkkkkkkkkkkkkkkkkkkkkkkkkkkkkkkkkkkkkkkkkk. 60 IN SOA . . 1 2 3 4 5";

/// Why the zone of a row isn't signed.
fn why(row: &Refused) -> SigningError {
    match row.5 {
        Some(error) => error,
        None => SigningError::InvalidSignatureValidityPeriod(
            Timestamp::from_int(0),
            Timestamp::from_int(row.4),
        ),
    }
}

/// Whether this is why the zone isn't signed into other records, and what is added to them.
fn is_refused_there(alloc: Global, row: &Refused) -> bool {
    let (Some(apex), Some(zone), Some(mut keys)) = (
        name(alloc, row.1),
        zone(alloc, row.2),
        keys(alloc, &[KEY]),
    ) else {
        return false;
    };
    let mut out = Vec::new(alloc);
    let config = config(row.3, row.4);
    sign_there(alloc, &apex, &zone, &mut out, &config, &mut keys) == Some(Err(why(row)))
        && are_lines(alloc, &out, row.6)
}

/// The same in place.
fn is_refused_here(alloc: Global, row: &Refused) -> bool {
    let (Some(apex), Some(mut zone), Some(want), Some(mut keys)) = (
        name(alloc, row.1),
        zone(alloc, row.2),
        zone_and(alloc, row.2, row.6),
        keys(alloc, &[KEY]),
    ) else {
        return false;
    };
    let config = config(row.3, row.4);
    sign_here(alloc, &apex, &mut zone, &config, &mut keys) == Some(Err(why(row)))
        && are_same(zone.as_slice(), want.as_slice())
}

fn assert_refused(rt: &impl Abort, alloc: Global, rows: &[Refused]) {
    for row in rows {
        let shows = row.0;
        assert!(rt; is_refused_there(alloc, row), "{shows}");
        assert!(rt; is_refused_here(alloc, row), "{shows}, in place");
    }
}

#[test]
fn refusals(rt: HostRuntime) {
    assert_refused(&rt, rt.alloc(), &REFUSED);
}
