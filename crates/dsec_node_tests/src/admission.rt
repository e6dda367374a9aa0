//! Key sets that DS records and anchors admit. Signatures are SHA-256 sums and digests of DS records, made with Python's hashlib.

use crate::admitting::{Want, is_admitted_by_anchors, is_admitted_by_ds, is_found};
use crate::key_lines::{
    BAD, BAD_TOO, BOTH_BY_OTHER, BOTH_SIGNED, CHAOS_ANCHOR, EXPIRED, FOURTH_DS, OF_ANOTHER_ZONE,
    OTHER_DS, OTHER_KEY, OTHER_OWNERS_DS, OTHERS_ANCHOR, SHA1_DS, SHA256_DS, SHA384_DS, SIX, SIX_1,
    SIX_2, SIX_3, SIX_4, SIX_5, SIX_6, SIX_BAD, SIX_DS, TWIN, TWIN_DS, TWIN_TOO, TWIN_TOO_DS,
    TWINS_BAD_1, TWINS_BAD_2, TWINS_BAD_3, TWINS_BAD_4, TWINS_SIGNED, UNKNOWN_ALGORITHM_DS,
    UNKNOWN_DIGEST_DS, WRONG_DS,
};
use dsec_cause::Cause;
use dsec_lines::{KEY, KEY_SIGNATURE, records};
use dsec_wire::Record;
use std::alloc::Global;
use std::process::Abort;

/// Keys, a DS record, how many keys are tried, and what the search comes to.
type Search = (
    &'static [&'static str],
    &'static str,
    u8,
    (Option<usize>, Option<Cause>),
);

#[rattlefmt::skip]
const SEARCHES: [Search; 11] = [
    (&[KEY], SHA1_DS, 4, (Some(0), None)),
    (&[KEY], SHA256_DS, 4, (Some(0), None)),
    (&[OTHER_KEY, KEY], SHA384_DS, 4, (Some(1), None)),
    (&[OTHER_KEY], SHA256_DS, 4, (None, None)),
    (&[KEY], OTHER_OWNERS_DS, 4, (None, None)),
    (&[KEY], UNKNOWN_DIGEST_DS, 4, (None, None)),
    (&[TWIN, TWIN_TOO], TWIN_TOO_DS, 1, (None, Some(Cause::TooManyDnskeysForDs))),
    (&[TWIN, TWIN_TOO], TWIN_TOO_DS, 2, (Some(1), None)),
    (&SIX, SIX_DS, 4, (None, Some(Cause::TooManyDnskeysForDs))),
    (&SIX, SIX_DS, 6, (None, None)),
    (&SIX, FOURTH_DS, 4, (Some(3), None)),
];

#[test]
fn keys_of_ds_records(rt: HostRuntime) {
    let alloc = rt.alloc();
    for (keys, ds, most, want) in &SEARCHES {
        assert!(rt; is_found(alloc, keys, ds, *most, *want), "{ds}");
    }
}

/// What a row shows, the lines of a DNSKEY set and of DS records or anchors, what admission comes to, and how often the
/// verifier is asked.
type Row = (
    &'static str,
    &'static [&'static str],
    &'static [&'static str],
    Want,
    u32,
);

#[rattlefmt::skip]
const BY_DS: [Row; 17] = [
    ("SHA-1", &[KEY, KEY_SIGNATURE], &[SHA1_DS], Want::Admits(0, 0, 0), 1),
    ("SHA-256", &[KEY, KEY_SIGNATURE], &[SHA256_DS], Want::Admits(0, 0, 0), 1),
    ("SHA-384", &[KEY, KEY_SIGNATURE], &[SHA384_DS], Want::Admits(0, 0, 0), 1),
    ("records that aren't supported are passed over", &[KEY, KEY_SIGNATURE], &[UNKNOWN_ALGORITHM_DS, UNKNOWN_DIGEST_DS, SHA256_DS], Want::Admits(2, 0, 0), 1),
    ("the second of two keys", &[OTHER_KEY, KEY, BOTH_BY_OTHER, BOTH_SIGNED], &[SHA256_DS], Want::Admits(0, 1, 1), 1),
    ("no records", &[KEY, KEY_SIGNATURE], &[], Want::Refuses(Cause::NoSignature), 0),
    ("a key that isn't there", &[KEY, KEY_SIGNATURE], &[OTHER_DS], Want::Refuses(Cause::NoSignature), 0),
    ("a key that didn't sign", &[KEY, OTHER_KEY, BOTH_SIGNED], &[OTHER_DS], Want::Refuses(Cause::NoSignature), 0),
    ("the DS record of another owner", &[KEY, KEY_SIGNATURE], &[OTHER_OWNERS_DS], Want::Refuses(Cause::NoSignature), 0),
    ("the signature of another zone", &[KEY, OF_ANOTHER_ZONE], &[SHA256_DS], Want::Refuses(Cause::NoSignature), 0),
    ("a bad signature", &[KEY, BAD], &[SHA256_DS], Want::Refuses(Cause::BadSignatureForDnskey), 1),
    ("an expired one", &[KEY, EXPIRED], &[SHA256_DS], Want::Refuses(Cause::BadSignatureForDnskey), 0),
    ("a good one after a bad one", &[KEY, BAD, KEY_SIGNATURE], &[SHA256_DS], Want::Admits(0, 0, 1), 2),
    ("two bad ones", &[KEY, BAD, BAD_TOO, KEY_SIGNATURE], &[SHA256_DS], Want::Refuses(Cause::TooManyBadSignaturesForDnskey), 2),
    (
        "two keys of one tag with four bad signatures",
        &[TWIN, TWIN_TOO, TWINS_BAD_1, TWINS_BAD_2, TWINS_BAD_3, TWINS_BAD_4],
        &[TWIN_DS, TWIN_TOO_DS],
        Want::Refuses(Cause::TooManyBadSignaturesForDnskey),
        2,
    ),
    ("one of them has signed", &[TWIN, TWIN_TOO, TWINS_SIGNED], &[TWIN_DS, TWIN_TOO_DS], Want::Admits(1, 1, 0), 2),
    ("the first cause counts", &[SIX_1, SIX_2, SIX_3, SIX_4, SIX_5, SIX_6, KEY, SIX_BAD], &[SIX_DS, SHA256_DS], Want::Refuses(Cause::TooManyDnskeysForDs), 1),
];

#[test]
fn admission_by_ds(rt: HostRuntime) {
    let alloc = rt.alloc();
    for (shows, section, ds, want, asked) in &BY_DS {
        match records(alloc, ds) {
            Some(ds) => {
                assert!(rt;
                    is_admitted_by_ds(alloc, section, &ds, *want, *asked),
                    "{shows}"
                )
            }
            None => assert!(rt; false, "{shows}"),
        }
    }
}

#[rattlefmt::skip]
const BY_ANCHORS: [Row; 11] = [
    ("a DNSKEY anchor", &[KEY, KEY_SIGNATURE], &[KEY], Want::Admits(0, 0, 0), 1),
    ("a DS anchor", &[KEY, KEY_SIGNATURE], &[SHA256_DS], Want::Admits(0, 0, 0), 1),
    ("the second anchor", &[KEY, KEY_SIGNATURE], &[OTHER_KEY, KEY], Want::Admits(1, 0, 0), 1),
    ("an anchor of another zone", &[KEY, KEY_SIGNATURE], &[OTHERS_ANCHOR], Want::Refuses(Cause::NoSignature), 0),
    ("an anchor of another class", &[KEY, KEY_SIGNATURE], &[CHAOS_ANCHOR], Want::Refuses(Cause::NoSignature), 0),
    ("an anchor of another type", &[KEY, KEY_SIGNATURE], &[KEY_SIGNATURE], Want::Refuses(Cause::NoSignature), 0),
    ("a key that isn't there", &[KEY, KEY_SIGNATURE], &[OTHER_KEY], Want::Refuses(Cause::NoSignature), 0),
    ("a key that didn't sign", &[KEY, OTHER_KEY, BOTH_SIGNED], &[OTHER_KEY], Want::Refuses(Cause::NoSignature), 0),
    ("a bad signature", &[KEY, BAD], &[KEY], Want::Refuses(Cause::BadSignature), 1),
    ("two bad ones", &[KEY, BAD, BAD_TOO, KEY_SIGNATURE], &[KEY], Want::Refuses(Cause::TooManyBadSignaturesForDnskey), 2),
    ("the pairs of all anchors count", &[KEY, BAD, KEY_SIGNATURE], &[OTHER_DS, KEY, SHA256_DS], Want::Admits(1, 0, 1), 2),
];

#[test]
fn admission_by_anchors(rt: HostRuntime) {
    let alloc = rt.alloc();
    for (shows, section, anchors, want, asked) in &BY_ANCHORS {
        match records(alloc, anchors) {
            Some(anchors) => {
                assert!(rt;
                    is_admitted_by_anchors(alloc, section, &anchors, *want, *asked),
                    "{shows}"
                )
            }
            None => assert!(rt; false, "{shows}"),
        }
    }
}

/// So many DS records that match no key, and one behind them.
fn many_and(alloc: Global, count: u32, last: &str) -> Option<Vec<Record>> {
    let mut all = Vec::new(alloc);
    for _ in 0..count {
        for one in records(alloc, &[WRONG_DS])? {
            if all.push(one).is_err() {
                return None;
            }
        }
    }
    for one in records(alloc, &[last])? {
        if all.push(one).is_err() {
            return None;
        }
    }
    Some(all)
}

/// How many records stand before the last, the last, and what admission comes to: 20 are tried of those that are supported.
#[rattlefmt::skip]
const MANY: [(u32, &str, Want, u32); 5] = [
    (19, SHA256_DS, Want::Admits(19, 0, 0), 1),
    (20, SHA256_DS, Want::Refuses(Cause::TooManyDsRecords), 0),
    (19, WRONG_DS, Want::Refuses(Cause::NoSignature), 0),
    (20, WRONG_DS, Want::Refuses(Cause::TooManyDsRecords), 0),
    (20, UNKNOWN_ALGORITHM_DS, Want::Refuses(Cause::NoSignature), 0),
];

#[test]
fn many_ds_records(rt: HostRuntime) {
    let alloc = rt.alloc();
    for (count, last, want, asked) in &MANY {
        match many_and(alloc, *count, last) {
            Some(ds) => {
                assert!(rt;
                    is_admitted_by_ds(alloc, &[KEY, KEY_SIGNATURE], &ds, *want, *asked),
                    "{last}"
                )
            }
            None => assert!(rt; false, "{last}"),
        }
    }
}
