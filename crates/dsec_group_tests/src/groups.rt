//! Sections in groups: signatures, letters, duplicates and order.

use dsec_group::{Group, Seed, groups};
use dsec_lines::records;
use dsec_name::NoMemory;
use dsec_number::{Class, Rtype};
use dsec_wire::Records;
use std::alloc::Global;
use std::process::Abort;

/// A group: its owner as it is shown, class and type, how many records and signatures it has, and whether it had a duplicate.
type Shown = (&'static str, u16, u16, usize, usize, bool);

/// What a row shows, the lines of a section, and its groups.
type Row = (&'static str, &'static [&'static str], &'static [Shown]);

#[rattlefmt::skip]
const ROWS: [Row; 6] = [
    (
        "records and their signature make a group",
        &[
            "A.Example. 60 IN A 192.0.2.1",
            "a.example. 60 IN RRSIG \\# 23 0001080100000e1000000009000000010007017a000505",
            "a.example. 60 IN A 192.0.2.2",
        ],
        &[("A.Example.", 1, 1, 2, 1, false)],
    ),
    (
        "the owner is that of the first record",
        &[
            "A.example. 60 IN RRSIG \\# 23 0001080100000e1000000009000000010007017a000505",
            "a.EXAMPLE. 60 IN A 192.0.2.1",
        ],
        &[("a.EXAMPLE.", 1, 1, 1, 1, false)],
    ),
    (
        "other owners, classes and types make other groups, in order of first arrival",
        &[
            "b. 60 IN A 192.0.2.1",
            "b. 60 CH A 192.0.2.1",
            "a. 60 IN A 192.0.2.1",
            "b. 60 IN AAAA 101:101:101:101:101:101:101:101",
            "B. 60 IN A 192.0.2.2",
        ],
        &[("b.", 1, 1, 2, 0, false), ("b.", 3, 1, 1, 0, false), ("a.", 1, 1, 1, 0, false), ("b.", 1, 28, 1, 0, false)],
    ),
    (
        // The names in MX data are signed in lower case (RFC 4034 6.2), those in NSEC data aren't (RFC 6840 5.1).
        "duplicates are told by canonical data",
        &[
            "m. 60 IN MX 10 a.",
            "m. 60 IN MX 10 A.",
            "n. 60 IN NSEC \\# 6 016100000140",
            "n. 60 IN NSEC \\# 6 014100000140",
        ],
        &[("m.", 1, 15, 1, 0, true), ("n.", 1, 47, 2, 0, false)],
    ),
    (
        "signatures alone have a type of their own",
        &[
            "A. 60 IN RRSIG \\# 23 000f080100000e1000000009000000010007017a000505",
            "a. 60 IN RRSIG \\# 23 000f080100000e1000000009000000010007017a000505",
            "a. 60 IN RRSIG \\# 23 0001080100000e1000000009000000010007017a000505",
        ],
        &[("A.", 1, 46, 0, 1, true), ("a.", 1, 46, 0, 1, false)],
    ),
    (
        "so many groups that they are found by a hash",
        &[
            "a. 60 IN A 192.0.2.1", "b. 60 IN A 192.0.2.1", "c. 60 IN A 192.0.2.1", "d. 60 IN A 192.0.2.1", "e. 60 IN A 192.0.2.1", "f. 60 IN A 192.0.2.1", "g. 60 IN A 192.0.2.1", "h. 60 IN A 192.0.2.1", "i. 60 IN A 192.0.2.1", "j. 60 IN A 192.0.2.1", "k. 60 IN A 192.0.2.1", "l. 60 IN A 192.0.2.1", "m. 60 IN A 192.0.2.1", "n. 60 IN A 192.0.2.1", "o. 60 IN A 192.0.2.1", "p. 60 IN A 192.0.2.1", "q. 60 IN A 192.0.2.1", "r. 60 IN A 192.0.2.1",
            "A. 60 IN RRSIG \\# 23 0001080100000e1000000009000000010007017a000505",
            "Q. 60 IN A 192.0.2.2",
            "r. 60 CH A 192.0.2.1",
            "r. 60 IN RRSIG \\# 23 0001080100000e1000000009000000010007017a000505",
            "r. 60 IN AAAA 101:101:101:101:101:101:101:101",
            "aa. 60 IN A 192.0.2.1",
            "R. 60 IN A 192.0.2.1",
            "AA. 60 IN A 192.0.2.1",
            "p. 60 IN A 192.0.2.3",
        ],
        &[
            ("a.", 1, 1, 1, 1, false),
            ("b.", 1, 1, 1, 0, false),
            ("c.", 1, 1, 1, 0, false),
            ("d.", 1, 1, 1, 0, false),
            ("e.", 1, 1, 1, 0, false),
            ("f.", 1, 1, 1, 0, false),
            ("g.", 1, 1, 1, 0, false),
            ("h.", 1, 1, 1, 0, false),
            ("i.", 1, 1, 1, 0, false),
            ("j.", 1, 1, 1, 0, false),
            ("k.", 1, 1, 1, 0, false),
            ("l.", 1, 1, 1, 0, false),
            ("m.", 1, 1, 1, 0, false),
            ("n.", 1, 1, 1, 0, false),
            ("o.", 1, 1, 1, 0, false),
            ("p.", 1, 1, 2, 0, false),
            ("q.", 1, 1, 2, 0, false),
            ("r.", 1, 1, 1, 1, true),
            ("r.", 3, 1, 1, 0, false),
            ("r.", 1, 28, 1, 0, false),
            ("aa.", 1, 1, 1, 0, true),
        ],
    ),
];

fn is_like(alloc: Global, group: &Group, want: &Shown) -> bool {
    let (owner, class, rtype, records, signatures, duplicate) = *want;
    let Ok(shown) = format!(in alloc; "{}", group.owner()) else {
        return false;
    };
    shown.as_str() == owner
        && group.class() == Class::from_int(class)
        && group.rtype() == Rtype::from_int(rtype)
        && group.rr_set().len() == records
        && group.sig_set_len() == signatures
        && group.found_duplicate() == duplicate
}

fn row_holds(alloc: Global, row: &Row) -> bool {
    let Some(section) = records(alloc, row.1) else {
        return false;
    };
    match groups(alloc, Records::new(section), Seed::fixed()) {
        Ok(found) => {
            let found = found.as_slice();
            found.len() == row.2.len()
                && found
                    .iter()
                    .zip(row.2)
                    .all(|(group, want)| is_like(alloc, group, want))
        }
        Err(NoMemory) => false,
    }
}

fn assert_rows(rt: &impl Abort, alloc: Global, rows: &[Row]) {
    for row in rows {
        let shows = row.0;
        assert!(rt; row_holds(alloc, row), "{shows}");
    }
}

#[test]
fn sections(rt: HostRuntime) {
    assert_rows(&rt, rt.alloc(), &ROWS);
}
