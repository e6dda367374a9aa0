//! Anchors as text, by owner and by island.

use dsec_anchors::{AnchorError, TrustAnchors};
use dsec_name::Name;
use dsec_number::Rtype;
use dsec_outside::{FailingSource, OctetsSource};
use dsec_zonefile::InplaceError;
use std::alloc::Global;
use std::test::Fail;

/// Anchors of three places and two classes, and another text, which is passed over.
const SIX: &[u8] = b"$ORIGIN example.
@ 60 IN DS 1 8 2 00
$INCLUDE more.zone
 DNSKEY 257 3 8 AQI= ; of the same owner
a CH TXT x
$TTL 5
EXAMPLE. IN A 192.0.2.1
a 7 IN DS 1 8 2 00
. DNSKEY 257 3 8 AQI=
";

/// How many anchors a text has, or the line that is refused as a number below 0.
fn count(read: Result<TrustAnchors, AnchorError>) -> Option<Result<usize, usize>> {
    match read {
        Ok(anchors) => Some(Ok(anchors.as_slice().len())),
        Err(AnchorError::InplaceError(InplaceError { line })) => Some(Err(line)),
        Err(_) => None,
    }
}

/// Texts, and how many anchors they have, or the line that is refused; a class is left out in the first, which
/// counts as IN unless a source is read.
const TEXTS: [(&[u8], Result<usize, usize>, Result<usize, usize>); 4] = [
    (b". 5 DNSKEY 257 3 8 AQI=", Ok(1), Err(1)),
    (SIX, Ok(6), Ok(6)),
    (b"; nothing", Ok(0), Ok(0)),
    (b"example. IN A 192.0.2.1\nexample. IN A x", Err(2), Err(2)),
];

fn is_read(
    alloc: Global,
    text: &[u8],
    want: Result<usize, usize>,
    of_reader: Result<usize, usize>,
) -> bool {
    let mut source = OctetsSource { rest: text };
    count(TrustAnchors::from_u8(alloc, text)) == Some(want)
        && count(TrustAnchors::from_reader(alloc, &mut source)) == Some(of_reader)
}

#[test]
fn texts_of_anchors(rt: HostRuntime) {
    for (text, want, of_reader) in TEXTS.iter() {
        assert!(rt; is_read(rt.alloc(), text, *want, *of_reader));
    }
}

/// What is added to the six in turn, and how many there are then.
fn added(alloc: Global) -> Result<Option<usize>, Fail> {
    let mut anchors = TrustAnchors::from_u8(alloc, SIX)?;
    anchors.add_u8(b"b. CH TXT x\n")?;
    let refused = anchors.add_u8(b"b. IN A 192.0.2.1\nb. A x");
    if refused != Err(AnchorError::InplaceError(InplaceError { line: 2 })) {
        return Ok(None);
    }
    Ok(Some(anchors.as_slice().len()))
}

#[test]
fn texts_are_added_or_not(rt: HostRuntime) -> Result<(), Fail> {
    assert!(rt; added(rt.alloc())? == Some(7));
    Ok(())
}

#[test]
fn a_read_that_fails(rt: HostRuntime) {
    let mut source = FailingSource {
        rest: SIX,
        failing: &[1],
        calls: 0,
        faults: 0,
        ended: false,
    };
    let read = TrustAnchors::from_reader(rt.alloc(), &mut source);
    assert!(rt; read.err() == Some(AnchorError::ReadError) && source.faults == 1);
}

/// Names and types with how many labels the owner of their island has, or 0 (RFC 4033 2, RFC 4035 2.4).
const ISLANDS: [(&str, Rtype, usize); 5] = [
    ("b.A.example.", Rtype::A, 3),
    ("a.example.", Rtype::DS, 2),
    ("Example.", Rtype::A, 2),
    ("other.", Rtype::A, 1),
    (".", Rtype::DS, 1),
];

fn has_island(
    alloc: Global,
    anchors: &TrustAnchors,
    name: &str,
    rtype: Rtype,
    labels: usize,
) -> bool {
    let Ok(name) = Name::parse(alloc, name) else {
        return false;
    };
    match anchors.island(&name, rtype) {
        Some(found) => found.owner().label_count() == labels,
        None => false,
    }
}

#[test]
fn islands_of_names(rt: HostRuntime) -> Result<(), Fail> {
    let anchors = TrustAnchors::from_u8(rt.alloc(), SIX)?;
    for (name, rtype, labels) in ISLANDS.iter() {
        assert!(rt;
            has_island(rt.alloc(), &anchors, name, *rtype, *labels),
            "{name}"
        );
    }
    Ok(())
}
