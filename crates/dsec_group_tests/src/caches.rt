//! A cache of a verifier's answers: what is kept, what is forgotten first, and that the moment is no part of it. Signatures are
//! SHA-256 sums, made with Python's hashlib.

use crate::checks::{Want, check, says};
use crate::lines::{ADDRESS, GOOD};
use dsec_cause::Cause;
use dsec_crypto::{StandIn, Verifier};
use dsec_group::Memo;
use dsec_lines::KEY;
use dsec_validated::SigCache;
use std::alloc::Global;
use std::process::Abort;

/// A key's flags, protocol, algorithm and octets, a message and a signature.
type Check = (u16, u8, u8, &'static [u8], &'static [u8], &'static [u8]);

const ONE: &[u8] =
    b"\xd0\x4a\x6b\x2a\x7f\xa7\x9a\xc4\x18\x5d\xdc\x44\xf0\x4b\x4c\xe4\x46\x54\x58\x42\xaf\xf1\x17\x6b\x91\x69\xee\x51\x8f\x05\x99\x61";

const TWO: &[u8] =
    b"\x40\x3f\xb5\x51\xe0\x2c\x9b\x5b\x57\xff\x75\x7f\xb7\xd6\xdc\x82\x34\x7a\x47\x58\xc4\xa7\x5b\xbf\x7f\x3f\x6d\xfe\xa7\x69\xad\x52";

/// A good signature over one message and over another, and then each part of the first changed, so that none of these is good.
#[rattlefmt::skip]
const CHECKS: [Check; 8] = [
    (257, 3, 13, b"\x01\x02", b"one", ONE),
    (257, 3, 13, b"\x01\x02", b"two", TWO),
    (256, 3, 13, b"\x01\x02", b"one", ONE),
    (257, 2, 13, b"\x01\x02", b"one", ONE),
    (257, 3, 8, b"\x01\x02", b"one", ONE),
    (257, 3, 13, b"\x01\x03", b"one", ONE),
    (257, 3, 13, b"\x01\x02", b"two", ONE),
    (257, 3, 13, b"\x01\x02", b"one", TWO),
];

/// Whether the memo gives this for a check.
fn gives<V: Verifier>(memo: &mut impl Memo<V>, check: &Check, want: Option<bool>) -> bool {
    let (flags, protocol, algorithm, key, message, signature) = *check;
    match memo.get_check(flags, protocol, algorithm, key, message, signature) {
        Ok(kept) => kept == want,
        Err(_) => false,
    }
}

/// Whether the verifier's answer, which is this, finds room in the memo.
fn keeps<V: Verifier>(memo: &mut impl Memo<V>, check: &Check, want: bool) -> bool {
    let (flags, protocol, algorithm, key, message, signature) = *check;
    let yes = V::verify(flags, protocol, algorithm, key, message, signature).is_ok();
    let kept = memo.put_check(flags, protocol, algorithm, key, message, signature, yes);
    yes == want && kept.is_ok()
}

/// What is done with a cache.
#[derive(Clone, Copy)]
enum Turn {
    /// The answer to the check of this index, which is this, is put.
    Put(usize, bool),
    /// The answer to the check of this index is asked for, and this is given.
    Get(usize, Option<bool>),
}

fn holds<V: Verifier>(cache: &mut SigCache<V>, turn: Turn) -> bool {
    match turn {
        Turn::Put(index, yes) => match CHECKS.get(index) {
            Some(check) => keeps::<V>(cache, check, yes),
            None => false,
        },
        Turn::Get(index, want) => match CHECKS.get(index) {
            Some(check) => gives::<V>(cache, check, want),
            None => false,
        },
    }
}

fn all_hold<V: Verifier>(alloc: Global, size: u64, turns: &[Turn]) -> bool {
    match SigCache::<V>::new(alloc, size) {
        Ok(mut cache) => {
            for turn in turns {
                if !holds::<V>(&mut cache, *turn) {
                    return false;
                }
            }
            true
        }
        Err(_) => false,
    }
}

/// What a row shows, the cache's size, and what is done in turn.
type Row = (&'static str, u64, &'static [Turn]);

#[rattlefmt::skip]
const ROWS: [Row; 4] = [
    (
        "an answer is given by all that it depends on, and by nothing less",
        10,
        &[
            Turn::Get(0, None), Turn::Put(0, true), Turn::Get(0, Some(true)), Turn::Get(1, None), Turn::Get(2, None),
            Turn::Get(3, None), Turn::Get(4, None), Turn::Get(5, None), Turn::Get(6, None), Turn::Get(7, None),
            Turn::Put(6, false), Turn::Get(6, Some(false)), Turn::Get(0, Some(true)), Turn::Get(1, None),
        ],
    ),
    (
        "a full cache forgets what wasn't put or asked for longest",
        2,
        &[
            Turn::Put(0, true), Turn::Put(7, false), Turn::Get(0, Some(true)), Turn::Put(1, true), Turn::Get(7, None),
            Turn::Get(0, Some(true)), Turn::Get(1, Some(true)),
        ],
    ),
    (
        "a size of 0 counts as 1",
        0,
        &[Turn::Put(0, true), Turn::Get(0, Some(true)), Turn::Put(1, true), Turn::Get(0, None), Turn::Get(1, Some(true))],
    ),
    (
        "the same answer again takes no other's place",
        2,
        &[Turn::Put(0, true), Turn::Put(1, true), Turn::Put(1, true), Turn::Get(0, Some(true))],
    ),
];

fn assert_rows(rt: &impl Abort, alloc: Global, rows: &[Row]) {
    for row in rows {
        let shows = row.0;
        assert!(rt; all_hold::<StandIn>(alloc, row.1, row.2), "{shows}");
    }
}

#[test]
fn answers_are_kept(rt: HostRuntime) {
    assert_rows(&rt, rt.alloc(), &ROWS);
}

/// What is signed of the address, and its signature.
const ADDRESS_CHECK: Check = (
    257,
    3,
    13,
    b"\x01\x02",
    b"\x00\x01\x0d\x02\x00\x00\x0e\x10\x00\x00\x03\xe8\x00\x00\x00\x00\x05\x10\x07example\x00\
    \x03www\x07example\x00\x00\x01\x00\x01\x00\x00\x0e\x10\x00\x04\xc0\x00\x02\x01",
    b"\x57\x40\xff\x5d\x59\x63\x06\xbf\xe2\xc5\xc7\xbd\x74\xec\xe6\xc7\x08\x2a\xf6\x19\xd5\x1f\x42\xff\xbb\x83\xf9\x74\xb9\xca\x90\x83",
);

/// Moments in turn, and what the address comes to. The signature is good from 0 to 1000, and its answer is kept from the first.
const MOMENTS: [(u32, Want); 4] = [
    (500, Want::Good(0, 0)),
    (1000, Want::Good(0, 0)),
    (1001, Want::Bogus(Cause::BadSignature)),
    (600, Want::Good(0, 0)),
];

fn comes_to<V: Verifier>(alloc: Global, cache: &mut SigCache<V>, moment: &(u32, Want)) -> bool {
    match check::<V>(alloc, &[ADDRESS, GOOD], &[KEY], 1, moment.0, cache) {
        Some(check) => says(alloc, &check, moment.1)
            && gives::<V>(cache, &ADDRESS_CHECK, Some(true)),
        None => false,
    }
}

fn are_as_said<V: Verifier>(alloc: Global, moments: &[(u32, Want)]) -> bool {
    match SigCache::<V>::new(alloc, 1) {
        Ok(mut cache) => {
            for moment in moments {
                if !comes_to::<V>(alloc, &mut cache, moment) {
                    return false;
                }
            }
            true
        }
        Err(_) => false,
    }
}

#[test]
fn the_period_is_tested_each_time(rt: HostRuntime) {
    assert!(rt; are_as_said::<StandIn>(rt.alloc(), &MOMENTS));
}
