//! The gap of an NSEC record (RFC 4034 4).

use dsec_denial::nsec_in_range;
use dsec_lines::name;
use std::alloc::Global;
use std::process::Abort;

/// A name, the owner and the next name of an NSEC record, and whether the name is in the gap between them.
#[rattlefmt::skip]
const RANGES: [(&str, &str, &str, bool); 10] = [
    ("b.example.", "a.example.", "c.example.", true),
    ("a.example.", "a.example.", "c.example.", false),
    ("A.Example.", "a.example.", "c.example.", false),
    ("c.example.", "a.example.", "c.example.", false),
    ("d.example.", "a.example.", "c.example.", false),
    ("x.a.example.", "a.example.", "c.example.", true),
    ("z.example.", "c.example.", "example.", true),
    ("b.example.", "c.example.", "example.", false),
    ("example.", "c.example.", "example.", false),
    ("b.example.", "a.example.", "a.example.", true),
];

fn is_range(alloc: Global, target: &str, owner: &str, next: &str, want: bool) -> bool {
    let (Some(target), Some(owner), Some(next)) = (
        name(alloc, target),
        name(alloc, owner),
        name(alloc, next),
    ) else {
        return false;
    };
    nsec_in_range(&target, &owner, &next) == want
}

fn assert_ranges(rt: &impl Abort, alloc: Global, rows: &[(&str, &str, &str, bool)]) {
    for (target, owner, next, want) in rows {
        assert!(rt;
            is_range(alloc, target, owner, next, *want),
            "{target} {owner} {next}"
        );
    }
}

#[test]
fn ranges(rt: HostRuntime) {
    assert_ranges(&rt, rt.alloc(), &RANGES);
}
