//! The signature of a set: what it says, and why there is none.

use crate::lines::{KEY, is_line, key, set_of, sorted_set_of};
use dsec_lines::records;
use dsec_number::Timestamp;
use dsec_sign::{SigningError, sign_rrset, sign_sorted_rrset_in};
use dsec_wire::Record;
use std::alloc::Global;
use std::process::Abort;

/// The signature's record; or that signatures aren't signed; or that the period is none.
#[derive(Clone, Copy)]
enum Want {
    Signed(&'static str),
    Signatures,
    Period,
}

/// A set, inception and expiration, and what comes of them.
type Row = (&'static [&'static str], u32, u32, Want);

/// Labels are counted without the root's and a leftmost asterisk (RFC 4034 3.1.3); letters of names in data are lowered, and the
/// records signed in the order of their data (RFC 4034 6); signatures aren't signed, whatever the period.
#[rattlefmt::skip]
const SETS: [Row; 5] = [
    (&["www.example.com. 3600 IN A 192.0.2.1"], 0, 10, Want::Signed("www.example.com. 3600 CLASS1 TYPE46 \\# 59 00010d0300000e100000000a000000000510076578616d706c6500c5089eb14a50517448831207dbf3b1980beb0a68ca209d48dd715e8b1758761a")),
    (&["*.example.com. 3600 IN A 192.0.2.1"], 0, 10, Want::Signed("*.example.com. 3600 CLASS1 TYPE46 \\# 59 00010d0200000e100000000a000000000510076578616d706c6500d08848b9ae9ac04603e6ac6bd98adef51029fc206cd4691ed05fcd2bc7e9ec93")),
    (&["WWW.Example. 60 IN MX 1 B.Example.", "www.example. 60 IN MX 1 A.Example."], 0, 10, Want::Signed("WWW.Example. 60 CLASS1 TYPE46 \\# 59 000f0d020000003c0000000a000000000510076578616d706c650006178eb4ab34a76afbac1fac86883c3f70ae2c527f9557210651999c639a6876")),
    (&["any. 60 IN RRSIG \\# 27 00010d0200000e10000003e8000000000510076578616d706c6500"], 0, 10, Want::Signatures),
    (&["any. 60 IN RRSIG \\# 27 00010d0200000e10000003e8000000000510076578616d706c6500"], 15, 5, Want::Signatures),
];

const ONE: &[&str] = &["a. 0 IN A 0.0.0.0"];

/// Periods of less than 2^31 seconds, also around 2^32, and others (RFC 4034 3.1.5).
#[rattlefmt::skip]
const PERIODS: [Row; 10] = [
    (ONE, 5, 10, Want::Signed("a. 0 CLASS1 TYPE46 \\# 59 00010d01000000000000000a000000050510076578616d706c6500b35f44d5094dfda80a13584fc1890b1da8c2cef56e3e6916518451225a97900b")),
    (ONE, 10, 10, Want::Signed("a. 0 CLASS1 TYPE46 \\# 59 00010d01000000000000000a0000000a0510076578616d706c65006bc36a736a88564ac4f53c72f1edf223ef61a437b604fd441e50a2e066fd8ffc")),
    (ONE, 4294967285, 4294967295, Want::Signed("a. 0 CLASS1 TYPE46 \\# 59 00010d0100000000fffffffffffffff50510076578616d706c6500ccd2d20a4491553524b3d1556ce7070f3d14fc1813d9e0d08fcc36d0769b9226")),
    (ONE, 0, 10, Want::Signed("a. 0 CLASS1 TYPE46 \\# 59 00010d01000000000000000a000000000510076578616d706c65006db80fe5cbce830a21ea4c17cfb004954783b172983df85b0f54a0a11f6b9ee9")),
    (ONE, 4294967285, 9, Want::Signed("a. 0 CLASS1 TYPE46 \\# 59 00010d010000000000000009fffffff50510076578616d706c650088810e2d7a0f94e9d4db2edd934e856b790321dc3c8391c8317bc9eda06dea73")),
    (ONE, 0, 2144448000, Want::Signed("a. 0 CLASS1 TYPE46 \\# 59 00010d01000000007fd1ae00000000000510076578616d706c65005199888a171ebb9b6cf1d89ce514167a39259653bc8d4f8b8ef2386192237b26")),
    (ONE, 0, 2147483647, Want::Signed("a. 0 CLASS1 TYPE46 \\# 59 00010d01000000007fffffff000000000510076578616d706c650093208e960b255f9cec590c0c694f22291231a687546823a668d12f94e4abce17")),
    (ONE, 15, 5, Want::Period),
    (ONE, 0, 2175984000, Want::Period),
    (ONE, 0, 2147483648, Want::Period),
];

fn is_refusal(error: SigningError, row: &Row) -> bool {
    match row.3 {
        Want::Signed(_) => false,
        Want::Signatures => error == SigningError::RrsigRrsMustNotBeSigned,
        Want::Period => {
            error
                == SigningError::InvalidSignatureValidityPeriod(
                    Timestamp::from_int(row.1),
                    Timestamp::from_int(row.2),
                )
        }
    }
}

fn is_outcome(alloc: Global, found: &Result<Record, SigningError>, row: &Row) -> bool {
    match found {
        Ok(one) => match row.3 {
            Want::Signed(line) => is_line(alloc, one, line),
            _ => false,
        },
        Err(error) => is_refusal(*error, row),
    }
}

/// Whether this comes of a set as it is given.
fn signs(alloc: Global, row: &Row) -> bool {
    let (Some(records), Some(mut key)) = (records(alloc, row.0), key(alloc, KEY)) else {
        return false;
    };
    let Some(set) = set_of(&records) else {
        return false;
    };
    let (inception, expiration) = (Timestamp::from_int(row.1), Timestamp::from_int(row.2));
    let found = sign_rrset(alloc, &mut key, &set, inception, expiration);
    is_outcome(alloc, &found, row)
}

/// Whether it comes of a set of one record by the call for sets in canonical order too, whatever its scratch holds.
fn signs_sorted(alloc: Global, row: &Row) -> bool {
    let (Some(records), Some(mut key)) = (records(alloc, row.0), key(alloc, KEY)) else {
        return false;
    };
    let Some(set) = sorted_set_of(&records) else {
        return false;
    };
    let mut scratch = Vec::new(alloc);
    if scratch.push(7).is_err() {
        return false;
    }
    let (inception, expiration) = (Timestamp::from_int(row.1), Timestamp::from_int(row.2));
    let found = sign_sorted_rrset_in(alloc, &mut key, &set, inception, expiration, &mut scratch);
    is_outcome(alloc, &found, row)
}

fn row_holds(alloc: Global, row: &Row) -> bool {
    signs(alloc, row) && (row.0.len() > 1 || signs_sorted(alloc, row))
}

fn assert_rows(rt: &impl Abort, alloc: Global, rows: &[Row]) {
    for row in rows {
        let (inception, expiration) = (row.1, row.2);
        assert!(rt; row_holds(alloc, row), "{inception} {expiration}");
    }
}

#[test]
fn sets(rt: HostRuntime) {
    assert_rows(&rt, rt.alloc(), &SETS);
}

#[test]
fn periods(rt: HostRuntime) {
    assert_rows(&rt, rt.alloc(), &PERIODS);
}
