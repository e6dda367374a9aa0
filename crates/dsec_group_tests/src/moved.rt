//! CNAME records that follow from a DNAME record, moved to its group (RFC 6672 3.1).

use dsec_cause::Cause;
use dsec_group::{Group, GroupSet, Seed, groups};
use dsec_lines::records;
use dsec_number::Rtype;
use dsec_wire::{Record, Records};
use std::alloc::Global;
use std::process::Abort;

/// A group: its owner as it is shown, its type, and how many records and extra records it has.
type Shown = (&'static str, u16, usize, usize);

/// What a row shows, the lines of a section, how many bare aliases there may be, the cause, and the groups afterwards.
type Row = (
    &'static str,
    &'static [&'static str],
    u8,
    Option<Cause>,
    &'static [Shown],
);

/// A DNAME whose target has 251 octets.
const LONG: &str =
    "d. 60 IN DNAME aaaaaaaaaaaaaaaaaaaaaaaaaaaaaaaaaaaaaaaaaaaaaaaaaaaaaaaaaaaaaaa.aaaaaaaaaaaaaaaaaaaaaaaaaaaaaaaaaaaaaaaaaaaaaaaaaaaaaaaaaaaaaaa.aaaaaaaaaaaaaaaaaaaaaaaaaaaaaaaaaaaaaaaaaaaaaaaaaaaaaaaaaaaaaaa.aaaaaaaaaaaaaaaaaaaaaaaaaaaaaaaaaaaaaaaaaaaaaaaaaaaaaaaaa.";

#[rattlefmt::skip]
const ROWS: [Row; 8] = [
    (
        "an alias goes to the DNAME that it follows from",
        &["d. 60 IN DNAME t.", "A.D. 60 IN CNAME a.T.", "a.t. 60 IN A 192.0.2.1"],
        11, None,
        &[("d.", 39, 1, 1), ("a.t.", 1, 1, 0)],
    ),
    (
        "an alias before its DNAME goes too, and so does one of an alias",
        &["a.d. 60 IN CNAME a.t.", "d. 60 IN DNAME t.", "b.d. 60 IN CNAME b.t."],
        2, None,
        &[("d.", 39, 1, 2)],
    ),
    (
        "of two DNAMEs that map it the first takes it",
        &["x. 60 IN DNAME y.", "d.x. 60 IN DNAME d.y.", "a.d.x. 60 IN CNAME a.d.y."],
        11, None,
        &[("x.", 39, 1, 1), ("d.x.", 39, 1, 0)],
    ),
    (
        "a DNAME of another class or to another target takes none",
        &["d. 60 CH DNAME t.", "d. 60 IN DNAME u.", "a.d. 60 IN CNAME a.t."],
        11, None,
        &[("d.", 39, 1, 0), ("d.", 39, 1, 0), ("a.d.", 5, 1, 0)],
    ),
    (
        "a DNAME takes none of its own owner",
        &["d. 60 IN DNAME t.", "d. 60 IN CNAME t."],
        11, None,
        &[("d.", 39, 1, 0), ("d.", 5, 1, 0)],
    ),
    (
        "a signed alias stays",
        &["d. 60 IN DNAME t.", "a.d. 60 IN CNAME a.t.", "a.d. 60 IN RRSIG \\# 23 0005080100000e1000000009000000010007017a000505"],
        0, None,
        &[("d.", 39, 1, 0), ("a.d.", 5, 1, 0)],
    ),
    (
        "a mapping past 255 octets ends the search",
        &[LONG, ". 60 IN DNAME t.", "bbbb.d. 60 IN CNAME bbbb.d.t."],
        11, None,
        &[("d.", 39, 1, 0), (".", 39, 1, 0), ("bbbb.d.", 5, 1, 0)],
    ),
    (
        "one bare alias more than there may be, and nothing is moved",
        &["d. 60 IN DNAME t.", "a.d. 60 IN CNAME a.t.", "z. 60 IN CNAME y."],
        1, Some(Cause::TooManyUnsignedCnames),
        &[("d.", 39, 1, 0), ("a.d.", 5, 1, 0), ("z.", 5, 1, 0)],
    ),
];

/// Where anchors stand at one name below the DNAME of most rows.
const ANCHORS: [&str; 1] = ["S.d. 60 IN TXT anchor"];

#[rattlefmt::skip]
const ANCHORED: [Row; 5] = [
    (
        "an alias below an anchor follows from no DNAME above it",
        &["d. 60 IN DNAME t.", "a.s.d. 60 IN CNAME a.s.t."],
        11, None,
        &[("d.", 39, 1, 0), ("a.s.d.", 5, 1, 0)],
    ),
    (
        "nor does one at the anchor",
        &["d. 60 IN DNAME t.", "s.d. 60 IN CNAME s.t."],
        11, None,
        &[("d.", 39, 1, 0), ("s.d.", 5, 1, 0)],
    ),
    (
        "from a DNAME at the anchor it follows",
        &["s.d. 60 IN DNAME t.", "a.s.d. 60 IN CNAME a.t."],
        11, None,
        &[("s.d.", 39, 1, 1)],
    ),
    (
        "an anchor beside the alias bars nothing",
        &["d. 60 IN DNAME t.", "a.d. 60 IN CNAME a.t."],
        11, None,
        &[("d.", 39, 1, 1)],
    ),
    (
        "a DNAME that is barred leaves it to the next, though it would map past 255 octets",
        &[LONG, "s.d. 60 IN DNAME s.t.", "bbbb.s.d. 60 IN CNAME bbbb.s.t."],
        11, None,
        &[("d.", 39, 1, 0), ("s.d.", 39, 1, 1)],
    ),
];

fn is_like(alloc: Global, group: &Group, want: &Shown) -> bool {
    let (owner, rtype, records, extra) = *want;
    let Ok(shown) = format!(in alloc; "{}", group.owner()) else {
        return false;
    };
    shown.as_str() == owner
        && group.rtype() == Rtype::from_int(rtype)
        && group.rr_set().len() == records
        && group.extra_set().len() == extra
}

fn are_like(alloc: Global, groups: &[Group], wanted: &[Shown]) -> bool {
    groups.len() == wanted.len()
        && groups
            .iter()
            .zip(wanted)
            .all(|(group, want)| is_like(alloc, group, want))
}

/// Whether the groups become what the row says, and a copy is what it is of.
fn become_so(alloc: Global, anchors: &[Record], found: &mut GroupSet, row: &Row) -> bool {
    match found.move_redundant_cnames(anchors, row.2) {
        Ok(cause) => {
            cause == row.3
                && are_like(alloc, found.as_slice(), row.4)
                && is_copied(alloc, found, row.4)
        }
        Err(_) => false,
    }
}

fn is_copied(alloc: Global, found: &GroupSet, wanted: &[Shown]) -> bool {
    match found.clone() {
        Ok(copy) => are_like(alloc, copy.as_slice(), wanted),
        Err(_) => false,
    }
}

fn row_holds(alloc: Global, anchors: &[Record], row: &Row) -> bool {
    let Some(section) = records(alloc, row.1) else {
        return false;
    };
    match groups(alloc, Records::new(section), Seed::fixed()) {
        Ok(mut found) => become_so(alloc, anchors, &mut found, row),
        Err(_) => false,
    }
}

fn assert_rows(rt: &impl Abort, alloc: Global, anchors: &[Record], rows: &[Row]) {
    for row in rows {
        let shows = row.0;
        assert!(rt; row_holds(alloc, anchors, row), "{shows}");
    }
}

#[test]
fn aliases_move(rt: HostRuntime) {
    assert_rows(&rt, rt.alloc(), &[], &ROWS);
    let anchors = records(rt.alloc(), &ANCHORS);
    assert!(rt; anchors.is_some());
    if let Some(anchors) = anchors {
        assert_rows(&rt, rt.alloc(), anchors.as_slice(), &ANCHORED);
    }
}
