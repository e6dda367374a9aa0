//! Digests and sizes of keys from outside: the root's key of 2017 with the digests that IANA and Python's hashlib give, the
//! key of RFC 4034 5.4 and RFC 4509 2.3, and one of Ed25519.

use dsec_crypto::AlgorithmError;
use dsec_lines::record;
use dsec_link::{DnskeyExt, DsExt};
use dsec_name::Name;
use dsec_wire::{Dnskey, Ds};
use std::alloc::Global;
use std::process::Abort;

const ROOT_KEY: &str =
    ". 60 IN DNSKEY 257 3 8 AwEAAaz/tAm8yTn4Mfeh5eyI96WSVexTBAvkMgJzkKTOiW1vkIbzxeF3+/4RgWOq7HrxRixHlFlExOLAJr5emLvN7SWXgnLh4+B5xQlNVz8Og8kvArMtNROxVQuCaSnIDdD5LKyWbRd2n9WGe2R8PzgCmr3EgVLrjyBxWezF0jLHwVN8efS3rCj/EWgvIWgb9tarpVUDK/b58Da+sqqls3eNbuv7pr+eoZG+SrDK6nWeL3c6H5Apxz7LjVc1uTIdsIXxuOLYA4/ilBmSVIzuDWfdRUfhHdY6+cn8HFRm+2hM8AnXGXws9555KrUB5qihylGa8subX2Nn6UwNR1AkUTV74bU=";

const EXAMPLE_KEY: &str =
    "dskey.EXAMPLE.com. 86400 IN DNSKEY 256 3 5 ( AQOeiiR0GOMYkDshWoSKz9Xz fwJr1AYtsmx3TGkJaNXVbfi/ 2pHm822aJ5iI9BMzNXxeYCmZ DRD99WYwYqUSdjMmmAphXdvx egXd/M5+X7OrzKBaMbCVdFLU Uh6DhweJBjEVv5f2wwjM9Xzc nOf+EPbtG9DMBmADjFDc2w/r ljwvFw== ) ; key id = 60485";

/// Keys and DS records, and whether these have the tag and the digest of their key.
#[rattlefmt::skip]
const DIGESTS: [(&str, &str, bool); 7] = [
    (ROOT_KEY, ". 60 IN DS 20326 8 1 AE1EA5B974D4C858B740BD03E3CED7EBFCBD1724", true),
    (ROOT_KEY, ". 60 IN DS 20326 8 2 E06D44B80B8F1D39A95C0B0D7C65D08458E880409BBC683457104237C7F8EC8D", true),
    (ROOT_KEY, ". 60 IN DS 20326 8 4 538F47BA9BB88908E1DC335D6DFD51CA66B4D824192E6E6E210AE8CC18ECE46A0F62B9F0D2F88DFC87D4BB8B8AED21CB", true),
    (ROOT_KEY, ". 60 IN DS 20326 8 2 E06D44B80B8F1D39A95C0B0D7C65D08458E880409BBC683457104237C7F8EC8E", false),
    (ROOT_KEY, ". 60 IN DS 20326 8 1 AE1EA5B974D4C858B740BD03E3CED7EBFCBD172400", false),
    (EXAMPLE_KEY, "dskey.example.com. 86400 IN DS 60485 5 1 ( 2BB183AF5F22588179A53B0A 98631FAD1A292118 )", true),
    (EXAMPLE_KEY, "dskey.example.com. 86400 IN DS 60485 5 2 ( D4B7D520E7BB5F0F67674A0C CEB1E3E0614B93C4F9E99B83 83F6A1E4469DA50A )", true),
];

/// Whether both calls say so of whether the key has the tag and the digest.
fn are_said(owner: &Name, key: &Dnskey<'_>, ds: &Ds<'_>, want: bool) -> bool {
    let is_so = match key.digest(owner, ds.digest_type) {
        Ok(digest) => digest.as_ref() == ds.digest && key.key_tag() == ds.key_tag,
        Err(_) => false,
    };
    is_so == want && ds.matches(owner, key) == want
}

fn is_digest(alloc: Global, key: &str, ds: &str, want: bool) -> bool {
    let (Some(key), Some(ds)) = (record(alloc, key), record(alloc, ds)) else {
        return false;
    };
    match (key.rdata().dnskey(), ds.rdata().ds()) {
        (Some(dnskey), Some(ds)) => are_said(key.owner(), &dnskey, &ds, want),
        _ => false,
    }
}

fn assert_digests(rt: &impl Abort, alloc: Global, rows: &[(&str, &str, bool)]) {
    for (key, ds, want) in rows {
        assert!(rt; is_digest(alloc, key, ds, *want), "{ds}");
    }
}

#[test]
fn digests(rt: HostRuntime) {
    assert_digests(&rt, rt.alloc(), &DIGESTS);
}

/// Keys and their bits; none where the algorithm isn't known, and some 0 where there is no such key. RSA keys with no
/// exponent, with exponents of one and of two octets of length, with no modulus, and with zeros before it; halves of odd
/// octets; and an Ed25519 key.
#[rattlefmt::skip]
const SIZES: [(&str, Option<usize>); 14] = [
    (ROOT_KEY, Some(2048)),
    (EXAMPLE_KEY, Some(1024)),
    (". 60 IN DNSKEY \\# 5 0101030800", Some(0)),
    (". 60 IN DNSKEY \\# 6 0101030a0000", Some(0)),
    (". 60 IN DNSKEY \\# 8 0101030800000080", Some(8)),
    (". 60 IN DNSKEY \\# 9 01010307000001ff01", Some(1)),
    (". 60 IN DNSKEY \\# 7 010103070002ff", Some(0)),
    (". 60 IN DNSKEY \\# 6 0101030501ff", Some(0)),
    (". 60 IN DNSKEY \\# 7 0101030501ff80", Some(8)),
    (". 60 IN DNSKEY \\# 8 0101030501ff0001", Some(8)),
    (". 60 IN DNSKEY \\# 9 0101030e0102030405", Some(16)),
    (". 60 IN DNSKEY 257 3 15 m1NELLVVQKl4fHVn/KKdeNO0PrYKGT3IGbYseT8XcKo=", Some(256)),
    (". 60 IN DNSKEY \\# 8 0101030102030405", None),
    (". 60 IN DNSKEY \\# 8 0101031102030405", None),
];

fn is_size(alloc: Global, key: &str, want: Option<usize>) -> bool {
    let Some(made) = record(alloc, key) else {
        return false;
    };
    let Some(key) = made.rdata().dnskey() else {
        return false;
    };
    match key.key_size() {
        Ok(bits) => want == Some(bits),
        Err(AlgorithmError::InvalidData) => want == Some(0),
        Err(error) => want.is_none() && error == AlgorithmError::Unsupported,
    }
}

fn assert_sizes(rt: &impl Abort, alloc: Global, rows: &[(&str, Option<usize>)]) {
    for (key, want) in rows {
        assert!(rt; is_size(alloc, key, *want), "{key}");
    }
}

#[test]
fn sizes(rt: HostRuntime) {
    assert_sizes(&rt, rt.alloc(), &SIZES);
}
