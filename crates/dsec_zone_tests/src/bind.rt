//! Texts of keys, as another reader of BIND's text reads them.

use dsec_lines::record;
use dsec_number::Rtype;
use dsec_records::*;
use dsec_wire::Record;
use std::alloc::Global;
use std::process::Abort;
use std::test::Fail;

/// Texts, the TTLs of their keys, and these as they are displayed. Comments, blank lines and split base64; a class in digits
/// and the ends of numbers; the root, and a CR in a name.
#[rattlefmt::skip]
const READ: [(&str, u32, &str); 5] = [
    ("example. 3600 IN DNSKEY 257 3 13 AQI=", 3600, "example. IN DNSKEY 257 3 13 AQI=\n"),
    ("; key\n\n \t\nExample 007 class3 type48 00257 3 13 A Q I= ; x\n;\n", 7, "Example. IN DNSKEY 257 3 13 AQI=\n"),
    ("a\\.b\t4294967295\tCH dnskey 65535 255 255 AQID;c", 4294967295, "a\\046b. IN DNSKEY 65535 255 255 AQID\n"),
    (". IN DNSKEY 0 0 0 AA==", 0, ". IN DNSKEY 0 0 0 AA==\n"),
    ("e\rx. IN DNSKEY 1 2 3 AA==", 0, "e\\013x. IN DNSKEY 1 2 3 AA==\n"),
];

/// Texts that aren't one key's. No record, two, one that goes over a line's end or is cut by its comment, another type, a
/// missing class, a TTL in the wrong place, a bad name; numbers past their ends or with a sign; no base64, and base64 without
/// padding, with bits to spare, or with a CR.
const REFUSED: [&str; 20] = [
    "",
    "\n;only\n \t",
    "example. A 1",
    "a. IN DNSKEY 257 3 13 AQI=\nb. IN DNSKEY 257 3 13 AQI=",
    "example. IN\nDNSKEY 257 3 13 AQI=",
    "exa\\;mple. IN DNSKEY 257 3 13 AQI=",
    "example. IN DS 257 3 13 AQI=",
    "example. 3600 DNSKEY 257 3 13 AQI=",
    "example. IN 3600 DNSKEY 257 3 13 AQI=",
    "a..b IN DNSKEY 257 3 13 AQI=",
    "example. 4294967296 IN DNSKEY 257 3 13 AQI=",
    "example. IN DNSKEY 65536 3 13 AQI=",
    "example. IN DNSKEY 257 256 13 AQI=",
    "example. IN DNSKEY 257 3 256 AQI=",
    "example. IN DNSKEY +257 3 13 AQI=",
    "example. IN DNSKEY 257 3 13",
    "example. IN DNSKEY 257 3 13 ",
    "example. IN DNSKEY 257 3 13 AQI",
    "example. IN DNSKEY 257 3 13 AQJ=",
    "example. IN DNSKEY 257 3 13 AQI=\r",
];

/// Whether a key's record is displayed so.
fn is_displayed(alloc: Global, key: &Record, want: &str) -> bool {
    if key.rtype() != Rtype::DNSKEY {
        return false;
    }
    match format!(in alloc; "{}", display_as_bind(key)) {
        Ok(text) => text.as_str() == want,
        Err(_) => false,
    }
}

fn is_read(alloc: Global, text: &str, ttl: u32, shown: &str) -> bool {
    match parse_from_bind(alloc, text) {
        Ok(Ok(key)) => key.ttl().as_secs() == ttl && is_displayed(alloc, &key, shown),
        _ => false,
    }
}

fn assert_read(rt: &impl Abort, alloc: Global, rows: &[(&str, u32, &str)]) {
    for (text, ttl, shown) in rows {
        assert!(rt; is_read(alloc, text, *ttl, shown), "{text}");
    }
}

#[test]
fn keys(rt: HostRuntime) {
    assert_read(&rt, rt.alloc(), &READ);
}

fn is_refused(alloc: Global, text: &str) -> bool {
    match parse_from_bind(alloc, text) {
        Ok(read) => read.is_err(),
        Err(_) => false,
    }
}

fn assert_refused(rt: &impl Abort, alloc: Global, texts: &[&str]) {
    for text in texts {
        assert!(rt; is_refused(alloc, text), "{text}");
    }
}

#[test]
fn other_texts(rt: HostRuntime) {
    assert_refused(&rt, rt.alloc(), &REFUSED);
}

/// A key without an octet is displayed without base64, which is refused.
#[test]
fn key_without_octets(rt: HostRuntime) {
    let shown = "example. IN DNSKEY 257 3 13 \n";
    assert!(rt; is_refused(rt.alloc(), shown));
    assert!(rt;
        match record(rt.alloc(), "example. 7 IN DNSKEY \\# 4 0101030d") {
            Some(key) => is_displayed(rt.alloc(), &key, shown),
            None => false,
        }
    );
}

#[test]
fn error_text(rt: HostRuntime) -> Result<(), Fail> {
    let text = format!(in rt.alloc(); "{}", ParseDnskeyTextError)?;
    assert!(rt; text.as_str() == "misformatted DNSKEY record");
    Ok(())
}
