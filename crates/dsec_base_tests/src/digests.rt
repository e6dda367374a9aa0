//! Outside values: FIPS 180-4's examples, RFC 5155's appendix A, and signatures that are SHA-256 sums.

use dsec_crypto::{
    AlgorithmError, By, DigestBuilder, DigestType, StandIn, TableVerifier, Verifier, ih,
};
use std::alloc::Global;
use std::mem::size_of;
use std::rc::Rc;

/// FIPS 180-4's example of two blocks.
const LONG: &[u8] = b"abcdbcdecdefdefgefghfghighijhijkijkljklmklmnlmnomnopnopq";

/// FIPS 180-4's examples: the empty message, one block and two blocks.
const DIGESTS: [(DigestType, &[u8], &str); 9] = [
    (
        DigestType::Sha1,
        b"",
        "da39a3ee5e6b4b0d3255bfef95601890afd80709",
    ),
    (
        DigestType::Sha1,
        b"abc",
        "a9993e364706816aba3e25717850c26c9cd0d89d",
    ),
    (
        DigestType::Sha1,
        LONG,
        "84983e441c3bd26ebaae4aa1f95129e5e54670f1",
    ),
    (
        DigestType::Sha256,
        b"",
        "e3b0c44298fc1c149afbf4c8996fb92427ae41e4649b934ca495991b7852b855",
    ),
    (
        DigestType::Sha256,
        b"abc",
        "ba7816bf8f01cfea414140de5dae2223b00361a396177a9cb410ff61f20015ad",
    ),
    (
        DigestType::Sha256,
        LONG,
        "248d6a61d20638b8e5c026930c3e6039a33ce45964ff2167f6ecedd419db06c1",
    ),
    (
        DigestType::Sha384,
        b"",
        "38b060a751ac96384cd9327eb1b1e36a21fdb71114be07434c0cc7bf63f6e1da274edebfe76f65fbd51ad2f14898b95b",
    ),
    (
        DigestType::Sha384,
        b"abc",
        "cb00753f45a35e8bb5a03d699ac65007272c32ab0eded1631a8b605a43ff5bed8086072ba1e7cc2358baeca134c825a7",
    ),
    (
        DigestType::Sha384,
        LONG,
        "3391fdddfc8dc7393707a65b1b4709397cf8b1d162af05abfe8f450de5f36bc6b0455a8520bc4e6f5fe95b1fe3c8452b",
    ),
];

fn is_hex(alloc: Global, octets: &[u8], hex: &str) -> bool {
    match hex::decode(alloc, hex) {
        Ok(decoded) => decoded.as_slice() == octets,
        Err(_) => false,
    }
}

/// Whether the message in two pieces, of which the first has at most 9 octets, has this digest.
fn has_digest(alloc: Global, digest_type: DigestType, message: &[u8], hex: &str) -> bool {
    let (front, back) = message.split_at(message.len().min(9));
    let mut builder = DigestBuilder::new(digest_type);
    builder.update(front);
    builder.update(back);
    is_hex(alloc, builder.finish().as_ref(), hex)
}

#[test]
fn known_digests(rt: HostRuntime) {
    for (digest_type, message, hex) in DIGESTS.iter() {
        assert!(rt; has_digest(rt.alloc(), *digest_type, message, hex), "{hex}");
    }
}

/// RFC 5155, appendix A: salt AABBCCDD and 12 iterations. The hashes are in hexadecimal in place of Base32.
/// With no salt and no iterations the hash is SHA-1, of which FIPS 180-4 has the last row's example.
const HASHES: [(&[u8], &[u8], u16, &str); 5] = [
    (
        b"\x07example\0",
        b"\xaa\xbb\xcc\xdd",
        12,
        "065368abeed7ec6e9feba96b8c8bc3e8b791f716",
    ),
    (
        b"\x01a\x07example\0",
        b"\xaa\xbb\xcc\xdd",
        12,
        "196dd8c3306783a8190f52c262d2b7e5e836e7f5",
    ),
    (
        b"\x01*\x01w\x07example\0",
        b"\xaa\xbb\xcc\xdd",
        12,
        "d946bd1d8c17bf6f2dfe2e196b1b2edf13da25d7",
    ),
    (
        b"\x02xx\x07example\0",
        b"\xaa\xbb\xcc\xdd",
        12,
        "e988472f544ae4b65d4839212fecd3c4cc2b563f",
    ),
    (b"abc", b"", 0, "a9993e364706816aba3e25717850c26c9cd0d89d"),
];

fn has_hash(alloc: Global, name: &[u8], salt: &[u8], iterations: u16, hex: &str) -> bool {
    is_hex(alloc, &ih(name, salt, iterations), hex)
}

#[test]
fn known_owner_hashes(rt: HostRuntime) {
    for (name, salt, iterations, hex) in HASHES.iter() {
        assert!(rt; has_hash(rt.alloc(), name, salt, *iterations, hex), "{hex}");
    }
}

/// A signed address, and its signature by the key of octets 1 and 2.
const ADDRESS: &[u8] =
    b"\x00\x01\x0d\x02\x00\x00\x0e\x10\x00\x00\x03\xe8\x00\x00\x00\x00\x05\x10\x07example\x00\x03www\x07example\x00\x00\x01\x00\x01\x00\x00\x0e\x10\x00\x04\xc0\x00\x02\x01";

const ADDRESS_SIGNATURE: &[u8] =
    b"\x57\x40\xff\x5d\x59\x63\x06\xbf\xe2\xc5\xc7\xbd\x74\xec\xe6\xc7\x08\x2a\xf6\x19\xd5\x1f\x42\xff\xbb\x83\xf9\x74\xb9\xca\x90\x83";

/// The same of a set of keys.
const KEYS: &[u8] =
    b"\x00\x30\x0d\x01\x00\x00\x0e\x10\x00\x00\x03\xe8\x00\x00\x00\x00\x05\x10\x07example\x00\x07example\x00\x00\x30\x00\x01\x00\x00\x0e\x10\x00\x06\x01\x01\x03\x0d\x01\x02";

const KEYS_SIGNATURE: &[u8] =
    b"\xd1\xe2\xfd\xe8\x56\xa7\x39\x99\x6d\x32\x77\x78\x7d\x3a\x44\xa1\x87\x82\xef\x12\x3b\x6d\x97\xb8\x9f\xe4\xbb\x25\x97\x1d\xd1\x72";

/// Keys, messages and signatures, and whether the verifiers accept them. The signatures are SHA-256 sums of 0101030d0102 and the
/// message.
const SIGNED: [(&[u8], &[u8], &[u8], bool); 6] = [
    (b"\x01\x02", ADDRESS, ADDRESS_SIGNATURE, true),
    (b"\x01\x02", KEYS, KEYS_SIGNATURE, true),
    (b"\x01\x03", ADDRESS, ADDRESS_SIGNATURE, false),
    (b"\x01\x02", ADDRESS, KEYS_SIGNATURE, false),
    (b"\x01\x02", KEYS, ADDRESS_SIGNATURE, false),
    (b"\x01\x02", KEYS, b"", false),
];

fn is_verdict(verdict: Result<(), AlgorithmError>, accepted: bool) -> bool {
    match verdict {
        Ok(()) => accepted,
        Err(error) => !accepted && error == AlgorithmError::BadSig,
    }
}

/// Whether both verifiers, under the flags, protocol and algorithm of the key, accept the row or not.
fn are_verdicts(key: &[u8], message: &[u8], signature: &[u8], accepted: bool) -> bool {
    is_verdict(
        StandIn::verify(257, 3, 13, key, message, signature),
        accepted,
    ) && is_verdict(
        TableVerifier::verify(257, 3, 13, key, message, signature),
        accepted,
    )
}

#[test]
fn verifiers_of_sums(rt: HostRuntime) {
    for (key, message, signature, accepted) in SIGNED.iter() {
        assert!(rt; are_verdicts(key, message, signature, *accepted));
    }
}

/// Flags, protocols and algorithms other than the key's; 385 has the REVOKE bit of RFC 5011.
const OTHERS: [(u16, u8, u8); 7] = [
    (0, 3, 13),
    (256, 3, 13),
    (385, 3, 13),
    (257, 2, 13),
    (257, 131, 13),
    (257, 3, 8),
    (257, 3, 14),
];

// The stand-in reads the whole key, and the table its octets alone.
#[test]
fn verifiers_of_other_keys(rt: HostRuntime) {
    for (flags, protocol, algorithm) in OTHERS.iter() {
        let (message, signature) = (ADDRESS, ADDRESS_SIGNATURE);
        let verdict = StandIn::verify(
            *flags,
            *protocol,
            *algorithm,
            b"\x01\x02",
            message,
            signature,
        );
        assert!(rt; is_verdict(verdict, false));
    }
    let verdict = TableVerifier::verify(0, 0, 255, b"\x01\x02", ADDRESS, ADDRESS_SIGNATURE);
    assert!(rt; is_verdict(verdict, true));
}

// Compiles for what is all three; an `Rc` is none of them.
fn copies<T: Copy + Send + Sync>(value: T) -> (T, T) {
    (value, value)
}

#[test]
fn a_name_of_a_type_takes_no_space(rt: HostRuntime) {
    let _both: (By<Rc<u8>>, By<Rc<u8>>) = copies(By::new());
    assert!(rt; size_of::<By<Rc<u8>>>() == 0);
}
