//! The keys that the stand-in takes.

use dsec_crypto::FromDnskeyError;
use dsec_lines::record;
use dsec_sign::{SignRaw, StandInKey};
use std::alloc::Global;
use std::process::Abort;

/// Keys, and why the stand-in doesn't take them, if it doesn't: it takes those of 1 to 64 octets.
#[rattlefmt::skip]
const TAKEN: [(&str, Option<FromDnskeyError>); 8] = [
    (". 60 IN DNSKEY 257 3 13 AQI=", None),
    (". 60 IN DNSKEY 0 3 5 AQ==", None),
    (". 60 IN DNSKEY \\# 68 0101030d00112233445566778899aabbccddeeff00112233445566778899aabbccddeeff00112233445566778899aabbccddeeff00112233445566778899aabbccddeeff", None),
    (". 60 IN DNSKEY \\# 69 0101030d00112233445566778899aabbccddeeff00112233445566778899aabbccddeeff00112233445566778899aabbccddeeff00112233445566778899aabbccddeeff00", Some(FromDnskeyError::InvalidKey)),
    (". 60 IN DNSKEY \\# 4 0101030d", Some(FromDnskeyError::InvalidKey)),
    (". 60 IN DNSKEY 257 2 13 AQI=", Some(FromDnskeyError::UnsupportedProtocol)),
    (". 60 IN DNSKEY \\# 4 0101030f", Some(FromDnskeyError::UnsupportedAlgorithm)),
    (". 60 IN DNSKEY \\# 4 0101020f", Some(FromDnskeyError::UnsupportedProtocol)),
];

fn is_taken(alloc: Global, key: &str, want: Option<FromDnskeyError>) -> bool {
    let Some(made) = record(alloc, key) else {
        return false;
    };
    let Some(key) = made.rdata().dnskey() else {
        return false;
    };
    match StandInKey::from_dnskey(&key) {
        Ok(taken) => want.is_none() && has_key(&taken, key.public_key),
        Err(error) => want == Some(error),
    }
}

fn has_key(taken: &StandInKey, public_key: &[u8]) -> bool {
    match taken.dnskey() {
        Ok(dnskey) => dnskey.public_key == public_key,
        Err(_) => false,
    }
}

fn assert_taken(rt: &impl Abort, alloc: Global, rows: &[(&str, Option<FromDnskeyError>)]) {
    for (key, want) in rows {
        assert!(rt; is_taken(alloc, key, *want), "{key}");
    }
}

#[test]
fn keys_of_the_stand_in(rt: HostRuntime) {
    assert_taken(&rt, rt.alloc(), &TAKEN);
}
