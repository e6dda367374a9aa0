//! For how long groups and signatures may be kept.

use dsec_group::{Seed, groups, ttl_for_sig};
use dsec_lines::{record, records};
use dsec_number::{Rtype, Timestamp};
use dsec_wire::Records;
use std::alloc::Global;
use std::process::Abort;

/// The lines of a group, and the least TTL of its records and the greatest of all.
type Row = (&'static [&'static str], u32, u32);

const SIGNATURE: &str = "a. 900 IN RRSIG \\# 23 0001080100000e1000000009000000010007017a000505";

#[rattlefmt::skip]
const ROWS: [Row; 4] = [
    (&["a. 300 IN A 192.0.2.1", "a. 60 IN A 192.0.2.2", "a. 120 IN A 192.0.2.3"], 60, 300),
    (&["a. 60 IN A 192.0.2.1", "a. 300 IN A 192.0.2.2", SIGNATURE], 60, 900),
    (&["a. 1000 IN A 192.0.2.1", SIGNATURE], 1000, 1000),
    (&[SIGNATURE], 0, 900),
];

fn row_holds(alloc: Global, row: &Row) -> bool {
    let Some(section) = records(alloc, row.0) else {
        return false;
    };
    let Ok(found) = groups(alloc, Records::new(section), Seed::fixed()) else {
        return false;
    };
    match found.as_slice() {
        [group] => group.min_ttl().as_secs() == row.1 && group.max_ttl().as_secs() == row.2,
        _ => false,
    }
}

fn assert_rows(rt: &impl Abort, alloc: Global, rows: &[Row]) {
    for row in rows {
        assert!(rt; row_holds(alloc, row));
    }
}

#[test]
fn groups_last(rt: HostRuntime) {
    assert_rows(&rt, rt.alloc(), &ROWS);
}

/// A signature from the moment 0 to 1000 with an original TTL of 3600, and TTLs of 60, 3000 and 7000.
const SHORT: &str = "a. 60 IN RRSIG \\# 27 00010d0200000e10000003e8000000000510076578616d706c6500";

const LONG: &str = "a. 3000 IN RRSIG \\# 27 00010d0200000e10000003e8000000000510076578616d706c6500";

const LONGER: &str =
    "a. 7000 IN RRSIG \\# 27 00010d0200000e10000013e8000000000510076578616d706c6500";

/// A signature whose period goes past the greatest moment: from 256 seconds before 0 until 256 (RFC 4034 3.1.5).
const WRAPPED: &str =
    "a. 3000 IN RRSIG \\# 27 00010d0200000e1000000100ffffff000510076578616d706c6500";

/// Signatures, moments, and for how many seconds each may be kept.
#[rattlefmt::skip]
const SECONDS: [(&str, u32, u32); 12] = [
    (SHORT, 500, 60),
    (SHORT, 990, 10),
    (SHORT, 1000, 0),
    (SHORT, 1001, 0),
    (LONG, 0, 1000),
    (LONG, 500, 500),
    (LONG, 4_294_967_295, 0),
    (LONGER, 0, 3600),
    (WRAPPED, 4_294_967_040, 512),
    (WRAPPED, 4_294_967_295, 257),
    (WRAPPED, 255, 1),
    (WRAPPED, 4_294_967_039, 0),
];

fn lasts(alloc: Global, line: &str, moment: u32, want: u32) -> bool {
    match record(alloc, line) {
        Some(sig) => {
            sig.rtype() == Rtype::RRSIG
                && ttl_for_sig(&sig, Timestamp::from_int(moment)).as_secs() == want
        }
        None => false,
    }
}

fn assert_seconds(rt: &impl Abort, alloc: Global, rows: &[(&str, u32, u32)]) {
    for (line, moment, want) in rows {
        assert!(rt; lasts(alloc, line, *moment, *want));
    }
}

#[test]
fn signatures_last(rt: HostRuntime) {
    assert_seconds(&rt, rt.alloc(), &SECONDS);
}
