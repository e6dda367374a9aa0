//! Names that are borrowed, octets, and canonical octets.

use dsec_name::{NameRef, Octets};
use std::alloc::Global;
use std::test::Fail;

/// Octets, the name at their front in canonical form (RFC 4034 6.2), and how many octets stand behind it.
const PREFIXES: [(&[u8], &[u8], usize); 3] = [
    (b"\x01A\x07Example\0\x01", b"\x01a\x07example\0", 1),
    (b"\0\0", b"\0", 1),
    (b"\x04a.\xc0@\0", b"\x04a.\xc0@\0", 0),
];

/// Whether the name is borrowed as the one of these canonical octets.
fn is_borrowed(alloc: Global, borrowed: NameRef<'_>, canonical: &[u8]) -> bool {
    let mut out = Vec::new(alloc);
    borrowed.compose_canonical(&mut out).is_ok() && out.as_slice() == canonical
}

/// Whether it is kept as that.
fn is_kept(alloc: Global, borrowed: NameRef<'_>, canonical: &[u8]) -> bool {
    let mut out = Vec::new(alloc);
    match borrowed.to_name(alloc) {
        Ok(kept) => {
            kept.compose_canonical(&mut out).is_ok()
                && out.as_slice() == canonical
                && borrowed.is(&kept)
        }
        Err(_) => false,
    }
}

fn begins(alloc: Global, octets: &[u8], canonical: &[u8], left: usize) -> bool {
    match NameRef::from_prefix(octets) {
        Some((borrowed, rest)) => {
            rest.len() == left
                && is_borrowed(alloc, borrowed, canonical)
                && is_kept(alloc, borrowed, canonical)
        }
        None => false,
    }
}

#[test]
fn names_are_borrowed(rt: HostRuntime) {
    for (octets, canonical, left) in PREFIXES.iter() {
        assert!(rt; begins(rt.alloc(), octets, canonical, *left));
    }
}

/// Octets that begin with no name.
const NONE: [&[u8]; 5] = [
    b"",
    b"\x01a",
    b"\x02a\0",
    b"\xc0\x0c",
    b"\x40aaaaaaaaaaaaaaaaaaaaaaaaaaaaaaaaaaaaaaaaaaaaaaaaaaaaaaaaaaaaaaaaa\0",
];

#[test]
fn octets_begin_with_no_name(rt: HostRuntime) {
    for octets in NONE.iter() {
        assert!(rt; NameRef::from_prefix(octets).is_none());
    }
}

#[test]
fn octets_are_copied(rt: HostRuntime) -> Result<(), Fail> {
    let shorter = Octets::new([1, 2].to_vec(rt.alloc())?);
    let longer = Octets::from([1, 2, 0].to_vec(rt.alloc())?);
    assert!(rt; longer.clone()? == longer && shorter < longer);
    Ok(())
}
