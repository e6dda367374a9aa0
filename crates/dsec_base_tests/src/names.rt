//! Names from the standards: texts, octets and their order.

use dsec_name::{Name, NameError};
use std::alloc::Global;
use std::cmp::Ordering;
use std::fmt::InlineText;

/// A name of 255 octets on the wire.
const LONGEST: &str =
    "abcdefghijklmnopqrstuvwxyz0123456789abcdefghijklmnopqrstuvwxyz0.abcdefghijklmnopqrstuvwxyz0123456789abcdefghijklmnopqrstuvwxyz0.abcdefghijklmnopqrstuvwxyz0123456789abcdefghijklmnopqrstuvwxyz0.abcdefghijklmnopqrstuvwxyz0123456789abcdefghijklmnopqrstuvwxy";

const LONGEST_WIRE: &[u8] =
    b"\x3fabcdefghijklmnopqrstuvwxyz0123456789abcdefghijklmnopqrstuvwxyz0\x3fabcdefghijklmnopqrstuvwxyz0123456789abcdefghijklmnopqrstuvwxyz0\x3fabcdefghijklmnopqrstuvwxyz0123456789abcdefghijklmnopqrstuvwxyz0\x3dabcdefghijklmnopqrstuvwxyz0123456789abcdefghijklmnopqrstuvwxy\0";

/// Texts, what their names are shown as, and their octets (RFC 1035 3.1, 5.1).
const READ: [(&str, &str, &[u8]); 8] = [
    (".", ".", b"\0"),
    ("Example", "Example.", b"\x07Example\0"),
    ("*._a-9.b.", "*._a-9.b.", b"\x01*\x04_a-9\x01b\0"),
    ("a\\.b.C", "a\\046b.C.", b"\x03a.b\x01C\0"),
    ("a\\046b.C.", "a\\046b.C.", b"\x03a.b\x01C\0"),
    (
        "\\\\.\\000\\255\\\"",
        "\\092.\\000\\255\\034.",
        b"\x01\\\x03\0\xff\"\0",
    ),
    ("\u{e9}.", "\\195\\169.", b"\x02\xc3\xa9\0"),
    (
        LONGEST,
        "abcdefghijklmnopqrstuvwxyz0123456789abcdefghijklmnopqrstuvwxyz0.abcdefghijklmnopqrstuvwxyz0123456789abcdefghijklmnopqrstuvwxyz0.abcdefghijklmnopqrstuvwxyz0123456789abcdefghijklmnopqrstuvwxyz0.abcdefghijklmnopqrstuvwxyz0123456789abcdefghijklmnopqrstuvwxy.",
        LONGEST_WIRE,
    ),
];

fn is_shown(alloc: Global, name: &Name, shown: &str) -> bool {
    match format!(in alloc; "{name}") {
        Ok(text) => text.as_str() == shown,
        Err(_) => false,
    }
}

/// Whether the name has these octets, and is read from them.
fn has_octets(alloc: Global, name: &Name, octets: &[u8]) -> bool {
    let mut out = Vec::new(alloc);
    let is_composed = name.compose(&mut out).is_ok() && out.as_slice() == octets;
    match Name::from_wire(alloc, octets) {
        Ok(read) => is_composed && read == *name,
        Err(_) => false,
    }
}

fn is_read(alloc: Global, text: &str, shown: &str, octets: &[u8]) -> bool {
    match Name::parse(alloc, text) {
        Ok(name) => is_shown(alloc, &name, shown) && has_octets(alloc, &name, octets),
        Err(_) => false,
    }
}

#[test]
fn names_are_read_and_shown(rt: HostRuntime) {
    for (text, shown, octets) in READ.iter() {
        assert!(rt; is_read(rt.alloc(), text, shown, octets));
    }
}

/// Texts that write no name, and why.
const REFUSED: [(&str, NameError); 14] = [
    ("", NameError::BadLabel),
    ("..", NameError::BadLabel),
    (".a", NameError::BadLabel),
    ("a..b.", NameError::BadLabel),
    ("a..", NameError::BadLabel),
    ("\\256", NameError::BadLabel),
    ("\\25", NameError::BadLabel),
    ("\\2a5", NameError::BadLabel),
    ("a.\\", NameError::BadLabel),
    ("a\\", NameError::BadLabel),
    (
        "a.abcdefghijklmnopqrstuvwxyz0123456789abcdefghijklmnopqrstuvwxyz0z.",
        NameError::LongLabel,
    ),
    (
        "a.abcdefghijklmnopqrstuvwxyz0123456789abcdefghijklmnopqrstuvwxyz0z..",
        NameError::BadLabel,
    ),
    (
        "abcdefghijklmnopqrstuvwxyz0123456789abcdefghijklmnopqrstuvwxyz0.abcdefghijklmnopqrstuvwxyz0123456789abcdefghijklmnopqrstuvwxyz0.abcdefghijklmnopqrstuvwxyz0123456789abcdefghijklmnopqrstuvwxyz0.abcdefghijklmnopqrstuvwxyz0123456789abcdefghijklmnopqrstuvwxyz",
        NameError::LongName,
    ),
    (
        "abcdefghijklmnopqrstuvwxyz0123456789abcdefghijklmnopqrstuvwxyz0.abcdefghijklmnopqrstuvwxyz0123456789abcdefghijklmnopqrstuvwxyz0.abcdefghijklmnopqrstuvwxyz0123456789abcdefghijklmnopqrstuvwxyz0.abcdefghijklmnopqrstuvwxyz0123456789abcdefghijklmnopqrstuvwxyz0z",
        NameError::LongLabel,
    ),
];

fn is_refused(alloc: Global, text: &str, error: NameError) -> bool {
    Name::parse(alloc, text).err() == Some(error)
}

#[test]
fn texts_of_no_name(rt: HostRuntime) {
    for (text, error) in REFUSED.iter() {
        assert!(rt; is_refused(rt.alloc(), text, *error), "{text}");
    }
}

/// Octets that are no name, and why.
const NO_NAMES: [(&[u8], NameError); 9] = [
    (b"", NameError::BadLabel),
    (b"\x01a", NameError::BadLabel),
    (b"\0\0", NameError::BadLabel),
    (b"\x02a\0", NameError::BadLabel),
    (b"\xc0\x0c", NameError::BadLabel),
    (b"\x01a\0\0", NameError::BadLabel),
    (
        b"\x40abcdefghijklmnopqrstuvwxyz0123456789abcdefghijklmnopqrstuvwxyz0z",
        NameError::BadLabel,
    ),
    (
        b"\x40abcdefghijklmnopqrstuvwxyz0123456789abcdefghijklmnopqrstuvwxyz0z\0",
        NameError::LongLabel,
    ),
    (
        b"\x01A\x3fabcdefghijklmnopqrstuvwxyz0123456789abcdefghijklmnopqrstuvwxyz0\x3fabcdefghijklmnopqrstuvwxyz0123456789abcdefghijklmnopqrstuvwxyz0\x3fabcdefghijklmnopqrstuvwxyz0123456789abcdefghijklmnopqrstuvwxyz0\x3dabcdefghijklmnopqrstuvwxyz0123456789abcdefghijklmnopqrstuvwxy\0",
        NameError::LongName,
    ),
];

fn is_no_name(alloc: Global, octets: &[u8], error: NameError) -> bool {
    Name::from_wire(alloc, octets).err() == Some(error)
}

#[test]
fn octets_of_no_name(rt: HostRuntime) {
    for (octets, error) in NO_NAMES.iter() {
        assert!(rt; is_no_name(rt.alloc(), octets, *error));
    }
}

/// Texts, origins, and the names that they write together (RFC 1035 5.1); none where they write none.
const IN_ZONE: [(&[u8], &str, &str); 12] = [
    (b"www", "Example.org", "www.Example.org."),
    (b"a.b", "Example.org", "a.b.Example.org."),
    (b"a.b.", "Example.org", "a.b."),
    (b".", "Example.org", "."),
    (b"a\\.", "Example.org", "a\\046.Example.org."),
    (b"a\\046", "Example.org", "a\\046.Example.org."),
    (b"a\\\\.", "Example.org", "a\\092."),
    (b"\xff@", "Example.org", "\\255\\064.Example.org."),
    (b"", "Example.org", "BadLabel"),
    (
        b"a.b.",
        "abcdefghijklmnopqrstuvwxyz0123456789abcdefghijklmnopqrstuvwxyz0.abcdefghijklmnopqrstuvwxyz0123456789abcdefghijklmnopqrstuvwxyz0.abcdefghijklmnopqrstuvwxyz0123456789abcdefghijklmnopqrstuvwxyz0.",
        "a.b.",
    ),
    (
        b"abcdefghijklmnopqrstuvwxyz0123456789abcdefghijklmnopqrstuvwxy",
        "abcdefghijklmnopqrstuvwxyz0123456789abcdefghijklmnopqrstuvwxyz0.abcdefghijklmnopqrstuvwxyz0123456789abcdefghijklmnopqrstuvwxyz0.abcdefghijklmnopqrstuvwxyz0123456789abcdefghijklmnopqrstuvwxyz0.",
        "abcdefghijklmnopqrstuvwxyz0123456789abcdefghijklmnopqrstuvwxy.abcdefghijklmnopqrstuvwxyz0123456789abcdefghijklmnopqrstuvwxyz0.abcdefghijklmnopqrstuvwxyz0123456789abcdefghijklmnopqrstuvwxyz0.abcdefghijklmnopqrstuvwxyz0123456789abcdefghijklmnopqrstuvwxyz0.",
    ),
    (
        b"abcdefghijklmnopqrstuvwxyz0123456789abcdefghijklmnopqrstuvwxyz",
        "abcdefghijklmnopqrstuvwxyz0123456789abcdefghijklmnopqrstuvwxyz0.abcdefghijklmnopqrstuvwxyz0123456789abcdefghijklmnopqrstuvwxyz0.abcdefghijklmnopqrstuvwxyz0123456789abcdefghijklmnopqrstuvwxyz0.",
        "LongName",
    ),
];

fn is_in_zone(alloc: Global, text: &[u8], origin: &str, shown: &str) -> bool {
    let Ok(origin) = Name::parse(alloc, origin) else {
        return false;
    };
    match Name::parse_in(alloc, text, &origin) {
        Ok(name) => is_shown(alloc, &name, shown),
        Err(error) => InlineText::<16>::of(error).as_str() == shown,
    }
}

#[test]
fn names_in_zones(rt: HostRuntime) {
    for (text, origin, shown) in IN_ZONE.iter() {
        assert!(rt; is_in_zone(rt.alloc(), text, origin, shown), "{shown}");
    }
}

/// RFC 4034 6.1's example behind the root, each name with the one before it.
const IN_ORDER: [(&str, &str); 9] = [
    (".", "example"),
    ("example", "a.example"),
    ("a.example", "yljkjljk.a.example"),
    ("yljkjljk.a.example", "Z.a.example"),
    ("Z.a.example", "zABC.a.EXAMPLE"),
    ("zABC.a.EXAMPLE", "z.example"),
    ("z.example", "\\001.z.example"),
    ("\\001.z.example", "*.z.example"),
    ("*.z.example", "\\200.z.example"),
];

fn is_before(alloc: Global, earlier: &str, later: &str) -> bool {
    match (Name::parse(alloc, earlier), Name::parse(alloc, later)) {
        (Ok(earlier), Ok(later)) => {
            earlier.canonical_cmp(&later) == Ordering::Less && earlier < later
        }
        _ => false,
    }
}

#[test]
fn names_in_the_canonical_order(rt: HostRuntime) {
    for (earlier, later) in IN_ORDER.iter() {
        assert!(rt; is_before(rt.alloc(), earlier, later), "{later}");
    }
}

/// Names, their parents, and how many labels an RRSIG record counts of them (RFC 4034 3.1.3).
const PARENTS: [(&str, &str, u8); 3] = [
    ("*.a.Example", "a.example", 2),
    ("a.b.", "B", 2),
    ("eXample.", ".", 1),
];

fn is_parent(name: &Name, parent: &Name) -> bool {
    match name.parent() {
        Ok(Some(found)) => found == *parent && name.ends_with(parent) && !parent.ends_with(name),
        _ => false,
    }
}

fn has_parent(alloc: Global, text: &str, parent: &str, labels: u8) -> bool {
    match (Name::parse(alloc, text), Name::parse(alloc, parent)) {
        (Ok(name), Ok(parent)) => {
            name.rrsig_label_count() == labels && is_parent(&name, &parent)
        }
        _ => false,
    }
}

#[test]
fn names_and_their_parents(rt: HostRuntime) {
    for (text, parent, labels) in PARENTS.iter() {
        assert!(rt; has_parent(rt.alloc(), text, parent, *labels), "{text}");
    }
}
