//! What NSEC3 records deny: the replies of RFC 5155 appendix B, and what is left of them with Opt-Out, with more iterations and less a
//! record.

use crate::hashed_records::{
    AT_A, AT_APEX, AT_NS1, AT_NS2, AT_STAR, AT_W, AT_XW, AT_YW, OPEN_AT_A, OPEN_AT_NS2,
    SLOW_AT_APEX, SLOWER_AT_APEX,
};
use crate::reply::{Signed, section};
use crate::told::{Asked, Want, answered};
use dsec_cause::Cause;
use dsec_lines::name;
use dsec_number::Rtype;
use std::alloc::Global;
use std::process::Abort;

/// What a row shows, the sets of an authority section, a name, what is asked of it, and what is wanted.
type Row = (&'static str, &'static [Signed], &'static str, Asked, Want);

#[rattlefmt::skip]
const ROWS: [Row; 19] = [
    ("B.1: the name", &[AT_APEX, AT_XW, AT_A], "a.c.x.w.example.", Asked::Name, Want::DeniedUnder("x.w.example.", &[1, 0])),
    ("B.1: the name and the wildcard", &[AT_APEX, AT_XW, AT_A], "a.c.x.w.example.", Asked::NameAndWildcard, Want::DeniedUnder("x.w.example.", &[1, 0, 2])),
    ("B.1 less the wildcard's record", &[AT_APEX, AT_XW], "a.c.x.w.example.", Asked::NameAndWildcard, Want::Nothing(None)),
    ("B.2: a type", &[AT_NS1], "ns1.example.", Asked::Type(Rtype::MX), Want::Denied(&[0])),
    ("B.2.1: an empty non-terminal", &[AT_YW], "y.w.example.", Asked::Type(Rtype::A), Want::Denied(&[0])),
    ("a type that stands there", &[AT_NS1], "ns1.example.", Asked::Type(Rtype::A), Want::Nothing(Some(Cause::Nsec3ProvesType))),
    ("B.3: DS of a delegation, with Opt-Out", &[OPEN_AT_A, AT_APEX], "c.example.", Asked::Type(Rtype::DS), Want::Open(Some(Cause::Nsec3OptOut))),
    ("B.3: its name, with Opt-Out", &[OPEN_AT_A, AT_APEX], "c.example.", Asked::Name, Want::OpenUnder("example.", Cause::Nsec3OptOut)),
    ("B.4: the next closer name", &[AT_NS2], "z.w.example.", Asked::NextCloser, Want::Denied(&[0])),
    ("B.4: with Opt-Out", &[OPEN_AT_NS2], "z.w.example.", Asked::NextCloser, Want::Open(None)),
    ("B.4: the wildcard's expansion", &[AT_NS2], "a.z.w.example.", Asked::ByWildcard("w.example."), Want::Denied(&[0])),
    ("B.4: the wildcard's expansion, with Opt-Out", &[OPEN_AT_NS2], "a.z.w.example.", Asked::ByWildcard("w.example."), Want::Open(None)),
    ("B.4: another wildcard", &[AT_NS2], "a.z.w.example.", Asked::ByWildcard("example."), Want::Bogus(Cause::NoDenialProof)),
    ("B.5: the wildcard's types", &[AT_W, AT_NS2, AT_STAR], "a.z.w.example.", Asked::TypeOfWildcard(Rtype::AAAA), Want::Denied(&[0, 1, 2])),
    ("B.5: a type that stands at the wildcard", &[AT_W, AT_NS2, AT_STAR], "a.z.w.example.", Asked::TypeOfWildcard(Rtype::MX), Want::Nothing(Some(Cause::Nsec3ProvesType))),
    ("B.6: DS at the zone's own name", &[AT_APEX], "example.", Asked::Type(Rtype::DS), Want::Nothing(Some(Cause::Nsec3FromApexForDs))),
    ("101 iterations", &[SLOW_AT_APEX], "a.c.x.w.example.", Asked::NameAndWildcard, Want::Open(Some(Cause::Nsec3IterationsInsecure))),
    ("501 iterations", &[SLOWER_AT_APEX], "a.c.x.w.example.", Asked::NameAndWildcard, Want::Bogus(Cause::Nsec3IterationsTooHigh)),
    ("no record", &[], "a.c.x.w.example.", Asked::NameAndWildcard, Want::Nothing(Some(Cause::NoNsec3Proof))),
];

fn row_holds(alloc: Global, row: &Row) -> bool {
    let (Some(groups), Some(signer), Some(target)) = (
        section(alloc, row.1),
        name(alloc, "example."),
        name(alloc, row.2),
    ) else {
        return false;
    };
    match answered(alloc, groups.as_slice(), &signer, &target, &row.3) {
        Ok(told) => told.is(alloc, &row.4),
        Err(_) => false,
    }
}

fn assert_rows(rt: &impl Abort, alloc: Global, rows: &[Row]) {
    for row in rows {
        let shows = row.0;
        assert!(rt; row_holds(alloc, row), "{shows}");
    }
}

#[test]
fn denials(rt: HostRuntime) {
    assert_rows(&rt, rt.alloc(), &ROWS);
}
