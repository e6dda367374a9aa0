//! Hashes of names, computed and kept: those of RFC 5155 appendix A.

use dsec_crypto::StandIn;
use dsec_group::{Memo, NoMemo};
use dsec_lines::name;
use dsec_name::Name;
use dsec_nsec3_hash::{cached_nsec3_hash, nsec3_label_to_hash, supported_nsec3_hash};
use dsec_number::Nsec3HashAlgorithm;
use dsec_sorted::{Nsec3Salt, OwnerHash};
use dsec_validated::Nsec3Cache;
use std::alloc::Global;
use std::process::Abort;

/// A name, and its hash with the salt `aabbccdd` and 12 iterations as a label.
type Row = (&'static str, &'static str);

#[rattlefmt::skip]
const ROWS: [Row; 5] = [
    ("example.", "0p9mhaveqvm6t7vbl5lop2u3t2rp3tom"),
    ("Ns1.EXAMPLE.", "2t7b4g4vsa5smi47k61mv5bv1a22bojr"),
    ("w.example.", "k8udemvp1j2f7eg6jebps17vp3n8i58h"),
    ("*.w.example.", "r53bq7cc2uvmubfu5ocmm6pers9tk9en"),
    ("x.y.w.example.", "2vptu5timamqttgl4luu9kg21e0aor3s"),
];

const SALT: &[u8] = b"\xaa\xbb\xcc\xdd";

/// The hash of a name by an algorithm, with a memo.
fn hash(
    alloc: Global,
    of: &str,
    algorithm: Nsec3HashAlgorithm,
    memo: &mut impl Memo<StandIn>,
) -> Option<OwnerHash> {
    let owner = name(alloc, of)?;
    match Nsec3Salt::from_octets(SALT) {
        Ok(salt) => hash_with(&owner, algorithm, &salt, memo),
        Err(_) => None,
    }
}

fn hash_with(
    owner: &Name,
    algorithm: Nsec3HashAlgorithm,
    salt: &Nsec3Salt,
    memo: &mut impl Memo<StandIn>,
) -> Option<OwnerHash> {
    match cached_nsec3_hash::<StandIn>(owner, algorithm, 12, salt, memo) {
        Ok(hash) => Some(hash),
        Err(_) => None,
    }
}

/// Whether the row's hash comes with this memo.
fn row_holds(alloc: Global, row: &Row, memo: &mut impl Memo<StandIn>) -> bool {
    match (
        hash(alloc, row.0, Nsec3HashAlgorithm::SHA1, memo),
        nsec3_label_to_hash(row.1.as_bytes()),
    ) {
        (Some(hash), Ok(want)) => hash.as_slice() == want.as_slice(),
        _ => false,
    }
}

fn assert_rows(rt: &impl Abort, alloc: Global, rows: &[Row], memo: &mut impl Memo<StandIn>) {
    for row in rows {
        let of = row.0;
        assert!(rt; row_holds(alloc, row, memo), "{of}");
    }
}

#[test]
fn hashes(rt: HostRuntime) {
    let alloc = rt.alloc();
    assert_rows(&rt, alloc, &ROWS, &mut NoMemo);
    let other = Nsec3HashAlgorithm::from_int(2);
    assert!(rt; supported_nsec3_hash(Nsec3HashAlgorithm::SHA1) && !supported_nsec3_hash(other));
    assert!(rt; hash(alloc, "example.", other, &mut NoMemo).is_none());
}

/// Whether the cache keeps the hash of these octets, with this salt and so many iterations.
fn is_kept(cache: &mut Nsec3Cache, octets: &[u8], salt: &[u8], iterations: u16) -> bool {
    let kept = Memo::<StandIn>::get_hash(cache, octets, salt, iterations);
    matches!(kept, Ok(Some(_)))
}

/// Whether hashes are given again by a cache of two, by all that they depend on, and the one that wasn't used for longest is forgotten.
fn are_kept(alloc: Global, mut cache: Nsec3Cache) -> bool {
    let (apex, name) = (
        b"\x07example\0".as_slice(),
        b"\x01w\x07example\0".as_slice(),
    );
    row_holds(alloc, &ROWS[0], &mut cache)
        && row_holds(alloc, &ROWS[2], &mut cache)
        && row_holds(alloc, &ROWS[0], &mut cache)
        && is_kept(&mut cache, apex, SALT, 12)
        && !is_kept(&mut cache, apex, SALT, 11)
        && !is_kept(&mut cache, apex, &[], 12)
        && is_kept(&mut cache, name, SALT, 12)
        && row_holds(alloc, &ROWS[4], &mut cache)
        && !is_kept(&mut cache, apex, SALT, 12)
        && is_kept(&mut cache, name, SALT, 12)
}

#[test]
fn kept_hashes(rt: HostRuntime) {
    let alloc = rt.alloc();
    match Nsec3Cache::new(alloc, 2) {
        Ok(cache) => assert!(rt; are_kept(alloc, cache)),
        Err(_) => assert!(rt; false),
    }
}
