//! Groups under the keys of a zone. Signatures are SHA-256 sums, made with Python's hashlib.

ghost use Rattle.std.specs.Prelude.{◌≡◌, ◌<◌};

use crate::lines::{ADDRESS, GOOD, NO_ZONE_KEY};
use dsec_cause::Cause;
use dsec_crypto::{StandIn, Verifier};
use dsec_group::{
    Group, KeyCheck, Limits, Memo, NoMemo, Seed, Steps, ValidationState, check_with_keys, groups,
};
use dsec_lines::{KEY, name, records};
use dsec_name::NoMemory;
use dsec_number::Timestamp;
use dsec_wire::{Dnskey, Record, Records};
use std::alloc::Global;
use std::marker::Brand;
use std::process::Abort;
use std::sync::ledger::{Blank, Ledger};

fn views_of<'a>(alloc: Global, keys: &'a [Record]) -> Result<Vec<Dnskey<'a>>, NoMemory> {
    let mut views = Vec::new(alloc);
    for key in keys {
        if let Some(view) = key.rdata().dnskey() {
            views.extend_from_slice(&[view])?;
        }
    }
    Ok(views)
}

/// The check of a group, with steps that nobody counts.
fn check_by<V: Verifier, L: Ledger>(
    alloc: Global,
    group: &Group,
    keys: &[Record],
    max_bad: u8,
    seconds: u32,
    memo: &mut impl Memo<V>,
    blank: Blank,
) -> Option<KeyCheck>
    requires name { blank.name ≡ L.name }
    requires parts { blank.parts ≡ L.parts }
    requires some { 0 < L.parts }
{
    let Ok(views) = views_of(alloc, keys) else {
        return None;
    };
    let zone = name(alloc, "example.")?;
    let mut limits = Limits::default();
    limits.max_bad_signatures = max_bad;
    let mut steps: Steps<L> = Steps::begin(blank);
    let t = Timestamp::from_int(seconds);
    match check_with_keys::<V, L>(alloc, group, &zone, &views, &limits, t, memo, &mut steps) {
        Ok(check) => Some(check),
        Err(NoMemory) => None,
    }
}

/// The check of the first group of a section under these keys, where so many signatures may be bad, at a moment.
pub(crate) fn check<V: Verifier>(
    alloc: Global,
    section: &[&str],
    keys: &[&str],
    max_bad: u8,
    seconds: u32,
    memo: &mut impl Memo<V>,
) -> Option<KeyCheck> {
    let section = records(alloc, section)?;
    let keys = records(alloc, keys)?;
    let Ok(found) = groups(alloc, Records::new(section), Seed::fixed()) else {
        return None;
    };
    let group = found.as_slice().first()?;
    check_by::<V, Brand>(alloc, group, &keys, max_bad, seconds, memo, Blank::new(1))
}

/// What a check says: the indexes of the signature and the key that are good, the closest encloser of a wildcard's expansion
/// by the first of them, or why there is none.
#[derive(Clone, Copy)]
pub(crate) enum Want {
    Good(usize, usize),
    Expanded(&'static str),
    Bogus(Cause),
}

fn has_encloser(alloc: Global, check: &KeyCheck, want: &str) -> bool {
    match (&check.closest_encloser, name(alloc, want)) {
        (Some(found), Some(want)) => *found == want,
        _ => false,
    }
}

fn is_good(check: &KeyCheck, signature: usize, key: usize) -> bool {
    check.state == ValidationState::Secure
        && check.cause.is_none()
        && check.signature == Some(signature)
        && check.key == Some(key)
}

fn is_bogus(check: &KeyCheck, cause: Cause) -> bool {
    check.state == ValidationState::Bogus
        && check.cause == Some(cause)
        && check.signature.is_none()
        && check.key.is_none()
        && check.closest_encloser.is_none()
}

pub(crate) fn says(alloc: Global, check: &KeyCheck, want: Want) -> bool {
    match want {
        Want::Good(signature, key) => {
            is_good(check, signature, key) && check.closest_encloser.is_none()
        }
        Want::Expanded(encloser) => is_good(check, 0, 0) && has_encloser(alloc, check, encloser),
        Want::Bogus(cause) => is_bogus(check, cause),
    }
}

/// What a row shows, the lines of a section and of keys, and what the check of the first group says at the moment 500, where
/// one signature may be bad.
type Row = (
    &'static str,
    &'static [&'static str],
    &'static [&'static str],
    Want,
);

#[rattlefmt::skip]
const ROWS: [Row; 12] = [
    ("a good signature", &[ADDRESS, GOOD], &[KEY], Want::Good(0, 0)),
    ("no keys", &[ADDRESS, GOOD], &[], Want::Bogus(Cause::NoSignature)),
    (
        "a key without the zone flag",
        &[ADDRESS, "www.example. 60 IN RRSIG \\# 59 00010d0200000e10000003e8000000000410074578616d706c6500592e640debec86af773b1d3a18969c0adaa24a411e0a42d5fbadb4d34594131e"],
        &[NO_ZONE_KEY],
        Want::Bogus(Cause::BadSignature),
    ),
    (
        "a key of protocol 2",
        &[ADDRESS, "www.example. 60 IN RRSIG \\# 59 00010d0200000e10000003e8000000000410074578616d706c6500d574aeb717ec1298571113ea72765c7df305c346548072452611cc4ddb4cd52b"],
        &["example. 60 IN DNSKEY 257 2 13 AQI="],
        Want::Bogus(Cause::BadSignature),
    ),
    ("another key than the signature names", &[ADDRESS, GOOD], &[NO_ZONE_KEY], Want::Bogus(Cause::NoSignature)),
    (
        "another signer",
        &[ADDRESS, "www.example. 60 IN RRSIG \\# 57 00010d0200000e10000003e8000000000510056f7468657200b6e7b45404ae447fe27c37fb667522a2cd426b60e35e6ec2e18decd3c00eb011"],
        &[KEY],
        Want::Bogus(Cause::NoSignature),
    ),
    (
        "more labels than the owner has",
        &[ADDRESS, "www.example. 60 IN RRSIG \\# 59 00010d0300000e10000003e8000000000510074578616d706c65007821916039e315e743c35b4716d366480f9d328dfce1a57d5880faac19dc4193"],
        &[KEY],
        Want::Bogus(Cause::BadSignature),
    ),
    (
        "an owner outside the zone",
        &["www.other. 60 IN A 192.0.2.1", "www.other. 60 IN RRSIG \\# 59 00010d0200000e10000003e8000000000510074578616d706c6500e0ca06e14dbec821e6b2f53a38272675d00afacc072c29d6960967732066fad6"],
        &[KEY],
        Want::Bogus(Cause::BadSignature),
    ),
    (
        "a record of class CH, which the signature isn't beside",
        &["www.example. 60 CH A 192.0.2.1", "www.example. 60 IN RRSIG \\# 59 00010d0200000e10000003e8000000000510074578616d706c6500cefc641db2caeafa53db1abf9811650af93612bfef28f2a19eb87756f32439af"],
        &[KEY],
        Want::Bogus(Cause::NoSignature),
    ),
    (
        // RFC 4035 5.3.4.
        "a wildcard's expansion",
        &["a.z.w.example. 60 IN A 192.0.2.1", "a.z.w.example. 60 IN RRSIG \\# 59 00010d0200000e10000003e8000000000510074578616d706c6500abda208e4c04e22db7343e201c6aca1a1a79cb2c6fd3bb106665d6b3ed395928"],
        &[KEY],
        Want::Expanded("w.example."),
    ),
    (
        // Of type RRSIG over no record: it is one by its definition.
        "a signature alone",
        &["www.example. 60 IN RRSIG \\# 59 002e0d0200000e10000003e8000000000510074578616d706c650090c779c657c89bfc439ce8fa06ef4014278c2e4b70628162c2eb4d7ec696252f"],
        &[KEY],
        Want::Good(0, 0),
    ),
    ("a signature of another type alone", &[GOOD], &[KEY], Want::Bogus(Cause::BadSignature)),
];

fn row_holds(alloc: Global, row: &Row) -> bool {
    match check::<StandIn>(alloc, row.1, row.2, 1, 500, &mut NoMemo) {
        Some(check) => says(alloc, &check, row.3),
        None => false,
    }
}

fn assert_rows(rt: &impl Abort, alloc: Global, rows: &[Row]) {
    for row in rows {
        let shows = row.0;
        assert!(rt; row_holds(alloc, row), "{shows}");
    }
}

#[test]
fn signatures_and_keys(rt: HostRuntime) {
    assert_rows(&rt, rt.alloc(), &ROWS);
}
