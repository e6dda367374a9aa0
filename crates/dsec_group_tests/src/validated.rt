//! Groups that aren't Secure, with what is said of them.

use crate::lines::{ADDRESS, GOOD};
use dsec_cause::Cause;
use dsec_crypto::StandIn;
use dsec_group::{Group, Seed, ValidationState, groups};
use dsec_lines::{name, records};
use dsec_name::{Name, NoMemory};
use dsec_number::{Class, Rtype};
use dsec_validated::ValidatedGroup;
use dsec_wire::Records;
use std::alloc::Global;
use std::process::Abort;

/// A copy of the first group of a section of lines.
fn first_of(alloc: Global, lines: &[&str]) -> Option<Group> {
    let section = records(alloc, lines)?;
    let Ok(found) = groups(alloc, Records::new(section), Seed::fixed()) else {
        return None;
    };
    match found.as_slice().first()?.clone() {
        Ok(group) => Some(group),
        Err(NoMemory) => None,
    }
}

/// A group with a status that isn't Secure, of the zone `example.`.
fn validated(
    alloc: Global,
    lines: &[&str],
    state: ValidationState,
) -> Option<ValidatedGroup<StandIn>> {
    let group = first_of(alloc, lines)?;
    let signer = name(alloc, "example.")?;
    match state {
        ValidationState::Secure => None,
        ValidationState::Bogus => {
            let cause = Some(Cause::BadSignature);
            Some(ValidatedGroup::unsecured(group, ValidationState::Bogus, signer, cause))
        }
        ValidationState::Insecure => Some(ValidatedGroup::unsecured(
            group,
            ValidationState::Insecure,
            signer,
            None,
        )),
        ValidationState::Indeterminate => {
            let cause = Some(Cause::NoTrustAnchor);
            Some(ValidatedGroup::unsecured(group, ValidationState::Indeterminate, signer, cause))
        }
    }
}

fn is_name(alloc: Global, found: &Name, want: &str) -> bool {
    match name(alloc, want) {
        Some(want) => *found == want,
        None => false,
    }
}

/// Whether the group in it is an address set with a signature, whose duplicate was dropped.
fn has_group(alloc: Global, made: &ValidatedGroup<StandIn>) -> bool {
    is_name(alloc, made.owner(), "www.example.")
        && made.class() == Class::IN
        && made.rtype() == Rtype::A
        && made.rr_set().len() == 1
        && made.sig_set().len() == 1
        && made.extra_set().is_empty()
        && made.found_duplicate()
        && made.group().sig_set_len() == 1
}

/// Whether it says this of the group, and nothing that only a Secure one has.
fn says(
    alloc: Global,
    made: &ValidatedGroup<StandIn>,
    state: ValidationState,
    cause: Option<Cause>,
) -> bool {
    made.state() == state
        && made.ede() == cause
        && is_name(alloc, made.signer_name(), "example.")
        && made.closest_encloser().is_none()
        && made.adjust_ttl().is_none()
        && made.shown().is_none()
}

/// Statuses and their causes.
const STATES: [(ValidationState, Option<Cause>); 3] = [
    (ValidationState::Bogus, Some(Cause::BadSignature)),
    (ValidationState::Insecure, None),
    (ValidationState::Indeterminate, Some(Cause::NoTrustAnchor)),
];

fn state_holds(alloc: Global, state: ValidationState, cause: Option<Cause>) -> bool {
    match validated(alloc, &[ADDRESS, GOOD, ADDRESS], state) {
        Some(made) => has_group(alloc, &made) && says(alloc, &made, state, cause),
        None => false,
    }
}

fn assert_states(rt: &impl Abort, alloc: Global, rows: &[(ValidationState, Option<Cause>)]) {
    for (state, cause) in rows {
        assert!(rt; state_holds(alloc, *state, *cause));
    }
}

#[test]
fn groups_that_are_not_secure(rt: HostRuntime) {
    assert_states(&rt, rt.alloc(), &STATES);
}
