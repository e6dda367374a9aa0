//! Aliases that are followed through the groups of a reply.

use crate::hashed_records::{AT_NS2, OPEN_AT_NS2};
use crate::reply::{Signed, section};
use dsec_cause::Cause;
use dsec_crypto::StandIn;
use dsec_follow::{AliasEnd, AliasStep, do_cname_dname};
use dsec_found::JudgedGroup;
use dsec_group::{Limits, NoMemo, ValidationState};
use dsec_lines::name;
use dsec_number::{Class, Rtype};
use std::alloc::Global;
use std::process::Abort;

/// `c.example.` is an alias of `d.example.`.
const FIRST: Signed = [
    "c.example. 3600 IN CNAME \\# 11 0164076578616d706c6500",
    "c.example. 3600 IN RRSIG \\# 59 00050d0200000e10000003e8000000000510076578616d706c6500e5aee384d10d4d0bda67a220ad8e3bce55f94795aa5541017febd36643911b6c",
];

/// `d.example.` is an alias of `e.example.`.
const SECOND: Signed = [
    "d.example. 3600 IN CNAME \\# 11 0165076578616d706c6500",
    "d.example. 3600 IN RRSIG \\# 59 00050d0200000e10000003e8000000000510076578616d706c650059a0be3bd7020f00a3eb635bc75b237898672fe8b161f90de1b948362a7934f1",
];

/// `d.example.` is an alias of `c.example.`.
const BACK: Signed = [
    "d.example. 3600 IN CNAME \\# 11 0163076578616d706c6500",
    "d.example. 3600 IN RRSIG \\# 59 00050d0200000e10000003e8000000000510076578616d706c6500acc0b007e195929ee3692ebcddb700f57175f301a8abe60d89c6eec6c28f4549",
];

/// Names below `n.example.` are aliases of those below `m.example.`.
const BELOW: Signed = [
    "n.example. 3600 IN DNAME \\# 11 016d076578616d706c6500",
    "n.example. 3600 IN RRSIG \\# 59 00270d0200000e10000003e8000000000510076578616d706c6500a5ef35ec56499dfc1013818f8681acd87b767939ea3ad47ce90f6e9107497ee7",
];

/// `*.w.example.` is an alias of `e.example.`, expanded to `a.z.w.example.`.
const EXPANDED: Signed = [
    "a.z.w.example. 3600 IN CNAME \\# 11 0165076578616d706c6500",
    "a.z.w.example. 3600 IN RRSIG \\# 59 00050d0200000e10000003e8000000000510076578616d706c65004c2e2b5f9a5ece46ffa8f9f54af0682cfb283d7c973989702e9f8058a99ce158",
];

/// What is wanted of a path: its last name, by aliases of these indexes; the same of one that stays open; or why it is Bogus at this
/// name.
#[derive(Clone, Copy)]
enum Want {
    Secure(&'static str, &'static [usize]),
    Open(&'static str, &'static [usize]),
    Bogus(&'static str, Cause),
}

/// What a row shows, the sets of the answer section and of the authority section, the name and the type that are asked for, how many
/// aliases are followed, and what is wanted.
type Row = (
    &'static str,
    &'static [Signed],
    &'static [Signed],
    &'static str,
    Rtype,
    u8,
    Want,
);

#[rattlefmt::skip]
const ROWS: [Row; 11] = [
    ("one alias", &[FIRST], &[], "c.example.", Rtype::A, 11, Want::Secure("d.example.", &[0])),
    ("two, in the other order", &[SECOND, FIRST], &[], "c.example.", Rtype::A, 2, Want::Secure("e.example.", &[1, 0])),
    ("one more than are followed", &[SECOND, FIRST], &[], "c.example.", Rtype::A, 1, Want::Bogus("e.example.", Cause::TooManyAliases)),
    ("none is followed", &[FIRST], &[], "c.example.", Rtype::A, 0, Want::Bogus("d.example.", Cause::TooManyAliases)),
    ("an alias that is asked for", &[FIRST], &[], "c.example.", Rtype::CNAME, 11, Want::Secure("c.example.", &[])),
    ("two of each other", &[FIRST, BACK], &[], "c.example.", Rtype::A, 11, Want::Bogus("c.example.", Cause::TooManyAliases)),
    ("a name below a DNAME record's", &[BELOW], &[], "a.b.n.example.", Rtype::A, 11, Want::Secure("a.b.m.example.", &[0])),
    ("a DNAME record's own name", &[BELOW], &[], "n.example.", Rtype::A, 11, Want::Secure("n.example.", &[])),
    ("an alias from a wildcard, its name denied", &[EXPANDED], &[AT_NS2], "a.z.w.example.", Rtype::A, 11, Want::Secure("e.example.", &[0])),
    ("an alias from a wildcard, its name left open", &[EXPANDED], &[OPEN_AT_NS2], "a.z.w.example.", Rtype::A, 11, Want::Open("e.example.", &[0])),
    ("an alias from a wildcard, its name not denied", &[EXPANDED], &[], "a.z.w.example.", Rtype::A, 11, Want::Bogus("a.z.w.example.", Cause::NoDenialProof)),
];

/// Whether the path's aliases have these indexes.
fn are_steps(steps: &[AliasStep], want: &[usize]) -> bool {
    if steps.len() != want.len() {
        return false;
    }
    for (step, index) in steps.iter().zip(want) {
        if step.group() != *index {
            return false;
        }
    }
    true
}

/// Whether the path ends at this name.
fn is_at(alloc: Global, end: &AliasEnd, last: &str) -> bool {
    match name(alloc, last) {
        Some(last) => *end.name() == last,
        None => false,
    }
}

fn ends(
    alloc: Global,
    end: &AliasEnd,
    last: &str,
    state: ValidationState,
    cause: Option<Cause>,
) -> bool {
    end.state() == state && end.cause() == cause && is_at(alloc, end, last)
}

fn is_wanted(alloc: Global, end: &AliasEnd, want: Want) -> bool {
    match want {
        Want::Secure(last, steps) => {
            ends(alloc, end, last, ValidationState::Secure, None) && are_steps(end.steps(), steps)
        }
        Want::Open(last, steps) => {
            ends(alloc, end, last, ValidationState::Insecure, None) && are_steps(end.steps(), steps)
        }
        Want::Bogus(last, cause) => {
            ends(alloc, end, last, ValidationState::Bogus, Some(cause)) && end.steps().is_empty()
        }
    }
}

/// Whether the path is the one that the row wants.
fn leads(
    alloc: Global,
    row: &Row,
    answers: &[JudgedGroup<StandIn>],
    authorities: &[JudgedGroup<StandIn>],
) -> bool {
    let Some(from) = name(alloc, row.3) else {
        return false;
    };
    let limits = Limits {
        max_cname_dname: row.5,
        ..Limits::default()
    };
    let end = do_cname_dname::<StandIn>(
        alloc,
        &from,
        Class::IN,
        row.4,
        answers,
        authorities,
        &[],
        &limits,
        &mut NoMemo,
    );
    match end {
        Ok(end) => is_wanted(alloc, &end, row.6),
        Err(_) => false,
    }
}

fn row_holds(alloc: Global, row: &Row) -> bool {
    let (Some(answers), Some(authorities)) = (section(alloc, row.1), section(alloc, row.2)) else {
        return false;
    };
    leads(alloc, row, answers.as_slice(), authorities.as_slice())
}

fn assert_rows(rt: &impl Abort, alloc: Global, rows: &[Row]) {
    for row in rows {
        let shows = row.0;
        assert!(rt; row_holds(alloc, row), "{shows}");
    }
}

#[test]
fn aliases(rt: HostRuntime) {
    assert_rows(&rt, rt.alloc(), &ROWS);
}
