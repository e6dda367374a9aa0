//! Signers that fail, at each call in turn.

use crate::calls::{Denial, config, sign_here};
use crate::lines::{KEY, ZONE, are_same, stand_in, zone, zone_and};
use crate::signers::FailingKey;
use dsec_lines::name;
use dsec_records::SortedRecords;
use dsec_sign::{SignError, SigningError, SigningKey};
use std::alloc::Global;

/// The zone's chain.
const CHAIN: &[&str] = &[
    "example. 300 CLASS1 TYPE47 \\# 20 026e73076578616d706c65000006220000000003",
    "ns.example. 300 CLASS1 TYPE47 \\# 17 076578616d706c65000006400000000003",
];

/// What is signed of the zone's sets, and of its chain's, in order, in hex: the data of a signature without its last part, and the set (RFC 4034
/// 3.1.8.1).
const MESSAGES: [&str; 5] = [
    "00020d0100000e100000000a000000000510076578616d706c6500076578616d706c65000002000100000e10000c026e73076578616d706c6500",
    "00060d0100000e100000000a000000000510076578616d706c6500076578616d706c65000006000100000e10002e026e73076578616d706c650004686f7374076578616d706c65000000000100000e1000000258000151800000012c",
    "002f0d010000012c0000000a000000000510076578616d706c6500076578616d706c6500002f00010000012c0014026e73076578616d706c65000006220000000003",
    "00010d0200000e100000000a000000000510076578616d706c6500026e73076578616d706c65000001000100000e100004c0000201",
    "002f0d020000012c0000000a000000000510076578616d706c6500026e73076578616d706c6500002f00010000012c0011076578616d706c65000006400000000003",
];

/// Whether the key tells these messages, and no other.
fn tells(alloc: Global, key: &FailingKey, messages: &[&str]) -> bool {
    if key.given.len() != messages.len() {
        return false;
    }
    for (given, message) in key.given.iter().zip(messages) {
        match hex::encode(alloc, given) {
            Ok(text) if text.as_str() == *message => {}
            _ => return false,
        }
    }
    true
}

/// The zone signed by a key whose call of this number fails, what signing answers, how many calls failed, and whether the key was given the first of
/// the messages, so many.
fn signed(
    alloc: Global,
    failing: u64,
    most: usize,
) -> Option<(SortedRecords, Result<(), SigningError>, u64, bool)> {
    let apex = name(alloc, "example.")?;
    let owner = name(alloc, "example.")?;
    let mut zone = zone(alloc, &ZONE)?;
    let inner = FailingKey {
        key: stand_in(alloc, KEY)?,
        failing,
        calls: 0,
        faults: 0,
        given: Vec::new(alloc),
    };
    let mut keys = [SigningKey::new(owner, 257, inner)];
    let config = config(Denial::Nsec, 10);
    let found = sign_here(alloc, &apex, &mut zone, &config, &mut keys)?;
    let key = keys[0].raw_secret_key();
    let told = tells(alloc, key, MESSAGES.get(..most)?);
    Some((zone, found, key.faults, told))
}

/// Whether the zone has its chain and no signature where this call fails, which is told, and nothing is asked after it.
fn fails(alloc: Global, failing: usize) -> bool {
    let (Some(found), Some(want)) = (
        signed(alloc, failing as u64, failing.saturating_add(1)),
        zone_and(alloc, &ZONE, CHAIN),
    ) else {
        return false;
    };
    found.1 == Err(SigningError::SigningError(SignError::Failed))
        && found.2 == 1
        && found.3
        && are_same(found.0.as_slice(), want.as_slice())
}

/// There are five sets to sign.
#[test]
fn a_call_fails(rt: HostRuntime) {
    for failing in 0..5usize {
        assert!(rt; fails(rt.alloc(), failing), "{failing}");
    }
}

/// Whether the zone has ten records where no call fails, and each message was given once.
fn signs(alloc: Global) -> bool {
    match signed(alloc, 5, 5) {
        Some(found) => found.1 == Ok(())
            && found.2 == 0
            && found.3
            && found.0.as_slice().len() == 10,
        None => false,
    }
}

#[test]
fn no_call_fails(rt: HostRuntime) {
    assert!(rt; signs(rt.alloc()));
}
