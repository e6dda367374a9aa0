//! Octets that are signed, written out by hand, and signatures over them that are SHA-256 sums, made with Python's hashlib.

use crate::lines::{ADDRESS, GOOD};
use dsec_crypto::{AlgorithmError, StandIn, TableVerifier, Verifier};
use dsec_lines::{KEY, KEY_SIGNATURE, name, record};
use dsec_link::{RrsigExt, TaggedKey, matches, may_sign, signed_bytes};
use dsec_name::{Name, NoMemory};
use dsec_number::{Rtype, Timestamp};
use dsec_wire::{Dnskey, Record, Rrsig};
use std::alloc::Global;
use std::process::Abort;

/// What is signed of the address of `www.example.`.
const ADDRESS_OCTETS: &[u8] =
    b"\x00\x01\x0d\x02\x00\x00\x0e\x10\x00\x00\x03\xe8\x00\x00\x00\x00\x05\x10\
    \x07example\x00\
    \x03www\x07example\x00\x00\x01\x00\x01\x00\x00\x0e\x10\x00\x04\xc0\x00\x02\x01";

/// What is signed of the DNSKEY set of `example.`.
const KEY_OCTETS: &[u8] =
    b"\x00\x30\x0d\x01\x00\x00\x0e\x10\x00\x00\x03\xe8\x00\x00\x00\x00\x05\x10\
    \x07example\x00\
    \x07example\x00\x00\x30\x00\x01\x00\x00\x0e\x10\x00\x06\x01\x01\x03\x0d\x01\x02";

/// What is signed, with two labels, of a mail exchange at `*.w.example.` and below (RFC 4035 B.6).
const EXCHANGE_OCTETS: &[u8] =
    b"\x00\x0f\x0d\x02\x00\x00\x0e\x10\x00\x00\x03\xe8\x00\x00\x00\x00\x05\x10\
    \x07example\x00\
    \x01*\x01w\x07example\x00\x00\x0f\x00\x01\x00\x00\x0e\x10\x00\x0e\
    \x00\x01\x02ai\x07example\x00";

/// A signature with two labels over mail exchanges.
const OVER_EXCHANGE: &str =
    "w.example. 60 IN RRSIG \\# 27 000f0d0200000e10000003e8000000000510076578616d706c6500";

/// Records, signatures over them, the octets that are signed, and the closest encloser of a wildcard's expansion.
type Row = (
    &'static str,
    &'static str,
    &'static [u8],
    Option<&'static str>,
);

#[rattlefmt::skip]
const ROWS: [Row; 4] = [
    ("WWW.example. 60 IN A 192.0.2.1", GOOD, ADDRESS_OCTETS, None),
    (KEY, KEY_SIGNATURE, KEY_OCTETS, None),
    ("*.w.example. 60 IN MX 1 AI.Example.", OVER_EXCHANGE, EXCHANGE_OCTETS, Some("w.example.")),
    ("a.z.w.example. 60 IN MX 1 AI.Example.", OVER_EXCHANGE, EXCHANGE_OCTETS, Some("w.example.")),
];

/// What is signed of a record, by the call that leaves it as it is.
fn bytes_of(alloc: Global, rrsig: &Rrsig<'_>, record: Record) -> Result<Vec<u8>, NoMemory> {
    let records = [record];
    let one = &records[0];
    let (owner, class, rtype) = (one.owner(), one.class(), one.rtype());
    signed_bytes(alloc, rrsig, owner, class, rtype, &records)
}

/// Whether these octets are signed of a record, by that call.
fn are_of_record(alloc: Global, rrsig: &Rrsig<'_>, record: Record, want: &[u8]) -> bool {
    match bytes_of(alloc, rrsig, record) {
        Ok(octets) => octets.as_slice() == want,
        Err(NoMemory) => false,
    }
}

/// The same by the call that brings records into order.
fn are_of_records(alloc: Global, rrsig: &Rrsig<'_>, record: Record, want: &[u8]) -> bool {
    let mut records = [record];
    let mut buf = Vec::new(alloc);
    rrsig.signed_data(alloc, &mut buf, &mut records).is_ok() && buf.as_slice() == want
}

/// Whether both calls say so.
fn are_signed(alloc: Global, rrsig: &Rrsig<'_>, text: &str, want: &[u8]) -> bool {
    let (Some(one), Some(again)) = (record(alloc, text), record(alloc, text)) else {
        return false;
    };
    are_of_record(alloc, rrsig, one, want) && are_of_records(alloc, rrsig, again, want)
}

fn is_name(alloc: Global, found: &Name, want: &str) -> bool {
    match name(alloc, want) {
        Some(want) => *found == want,
        None => false,
    }
}

/// Whether this is the closest encloser.
fn has_encloser(alloc: Global, rrsig: &Rrsig<'_>, record: &Record, want: Option<&str>) -> bool {
    match rrsig.wildcard_closest_encloser(alloc, record) {
        Ok(Some(found)) => match want {
            Some(want) => is_name(alloc, &found, want),
            None => false,
        },
        Ok(None) => want.is_none(),
        Err(NoMemory) => false,
    }
}

fn row_holds(alloc: Global, row: &Row) -> bool {
    let (Some(record), Some(made)) = (record(alloc, row.0), record(alloc, row.1)) else {
        return false;
    };
    let Some(rrsig) = made.rdata().rrsig() else {
        return false;
    };
    has_encloser(alloc, &rrsig, &record, row.3) && are_signed(alloc, &rrsig, row.0, row.2)
}

fn assert_rows(rt: &impl Abort, alloc: Global, rows: &[Row]) {
    for row in rows {
        let shows = row.0;
        assert!(rt; row_holds(alloc, row), "{shows}");
    }
}

#[test]
fn signed_octets(rt: HostRuntime) {
    assert_rows(&rt, rt.alloc(), &ROWS);
}

fn has_data(record: &Record, want: &[u8]) -> bool {
    record.rdata().octets().as_slice() == want
}

/// Whether the octets of no records and then of two are the RRSIG's data, 27 octets, and then these again before two records
/// of 27 octets each, of which the first is the address, and whether the records are in this order then.
fn are_in_order(alloc: Global, rrsig: &Rrsig<'_>, late: Record, early: Record) -> bool {
    if late.rtype() != Rtype::A || early.rtype() != Rtype::A {
        return false;
    }
    let mut records = [late, early];
    let mut buf = Vec::new(alloc);
    rrsig.signed_data(alloc, &mut buf, &mut []).is_ok()
        && buf.as_slice() == ADDRESS_OCTETS.split_at(27).0
        && rrsig.signed_data(alloc, &mut buf, &mut records).is_ok()
        && buf.len() == 27 + 27 + 2 * 27
        && buf[27..].starts_with(ADDRESS_OCTETS)
        && has_data(&records[0], b"\xc0\x00\x02\x01")
        && has_data(&records[1], b"\xc0\x00\x02\x09")
}

fn orders(alloc: Global) -> bool {
    let (Some(late), Some(early), Some(made)) = (
        record(alloc, "www.example. 60 IN A 192.0.2.9"),
        record(alloc, ADDRESS),
        record(alloc, GOOD),
    ) else {
        return false;
    };
    match made.rdata().rrsig() {
        Some(rrsig) => are_in_order(alloc, &rrsig, late, early),
        None => false,
    }
}

#[test]
fn records_come_into_order(rt: HostRuntime) {
    assert!(rt; orders(rt.alloc()));
}

/// A key, a signature, a moment, and whether the signature counts as the key's over the address.
type Counts = (&'static str, &'static str, u32, bool);

#[rattlefmt::skip]
const COUNTS: [Counts; 5] = [
    (KEY, GOOD, 500, true),
    (KEY, GOOD, 1000, true),
    (KEY, GOOD, 1001, false),
    (KEY, KEY_SIGNATURE, 500, false),
    ("example. 60 IN DNSKEY 1 3 13 AQI=", "www.example. 60 IN RRSIG \\# 59 00010d0200000e10000003e8000000000410074578616d706c65005740ff5d596306bfe2c5c7bd74ece6c7082af619d51f42ffbb83f974b9ca9083", 500, false),
];

/// Whether the tests before the verifier's pass.
fn fits(zone: &Name, address: &Record, rrsig: &Rrsig<'_>, key: &Dnskey<'_>, seconds: u32) -> bool {
    let (owner, rtype, t) = (
        address.owner(),
        address.rtype(),
        Timestamp::from_int(seconds),
    );
    may_sign(owner, rtype, rrsig, key, zone, t) && matches(rrsig, &TaggedKey::new(key), zone)
}

/// Whether the verifier accepts the signature over the address.
fn is_accepted<V: Verifier>(
    alloc: Global,
    address: Record,
    rrsig: &Rrsig<'_>,
    key: &Dnskey<'_>,
) -> bool {
    match bytes_of(alloc, rrsig, address) {
        Ok(octets) => rrsig.verify_signed_data::<V>(key, &octets).is_ok(),
        Err(NoMemory) => false,
    }
}

/// Whether the address counts as signed at the moment by all tests, one by one.
fn is_counted<V: Verifier>(
    alloc: Global,
    address: Record,
    rrsig: &Rrsig<'_>,
    key: &Dnskey<'_>,
    seconds: u32,
) -> bool {
    match name(alloc, "Example.") {
        Some(zone) => {
            fits(&zone, &address, rrsig, key, seconds)
                && is_accepted::<V>(alloc, address, rrsig, key)
        }
        None => false,
    }
}

/// Whether the signature counts at the moment, or doesn't.
fn counts<V: Verifier>(alloc: Global, row: &Counts) -> bool {
    let (key, signature, seconds, want) = *row;
    let (Some(address), Some(key), Some(made)) = (
        record(alloc, ADDRESS),
        record(alloc, key),
        record(alloc, signature),
    ) else {
        return false;
    };
    match (made.rdata().rrsig(), key.rdata().dnskey()) {
        (Some(rrsig), Some(key)) => {
            is_counted::<V>(alloc, address, &rrsig, &key, seconds) == want
        }
        _ => false,
    }
}

fn assert_counts<V: Verifier>(rt: &impl Abort, alloc: Global, rows: &[Counts]) {
    for row in rows {
        assert!(rt; counts::<V>(alloc, row));
    }
}

#[test]
fn signatures(rt: HostRuntime) {
    assert_counts::<StandIn>(&rt, rt.alloc(), &COUNTS);
    assert_counts::<TableVerifier>(&rt, rt.alloc(), &COUNTS);
}

/// Whether this comes of the address's signature under the key over the message.
fn verifies<V: Verifier>(
    alloc: Global,
    key: &str,
    message: &[u8],
    want: Result<(), AlgorithmError>,
) -> bool {
    let (Some(key), Some(made)) = (record(alloc, key), record(alloc, GOOD)) else {
        return false;
    };
    match (made.rdata().rrsig(), key.rdata().dnskey()) {
        (Some(rrsig), Some(key)) => { rrsig.verify_signed_data::<V>(&key, message) == want }
        _ => false,
    }
}

#[test]
fn verifying(rt: HostRuntime) {
    let alloc = rt.alloc();
    assert!(rt; verifies::<TableVerifier>(alloc, KEY, ADDRESS_OCTETS, Ok(())));
    assert!(rt; verifies::<TableVerifier>(alloc, KEY, KEY_OCTETS, Err(AlgorithmError::BadSig)));
}
