//! Messages rewritten by their groups, against octets that were written out by hand.

use dsec_group::{GroupSet, Seed, groups};
use dsec_message::Message;
use dsec_name::NoMemory;
use dsec_number::{Timestamp, Ttl};
use dsec_rewrite::{BoundedGroup, RewriteError, adjusted_ttl, is_due, rebuild_msg, rewrite};
use dsec_wire::Records;
use std::alloc::Global;
use std::test::Fail;

/// An answer to `www.example. A`: the address, signed from the moment 0 to 1000, each with a TTL of 3600 seconds.
const SIGNED: &[u8] = b"\0\0\x84\0\0\x01\0\x02\0\0\0\0\
    \x03www\x07example\0\0\x01\0\x01\
    \x03www\x07example\0\0\x01\0\x01\0\0\x0e\x10\0\x04\xc0\0\x02\x01\
    \x03www\x07example\0\0\x2e\0\x01\0\0\x0e\x10\0\x3b\
    \0\x01\x0d\x02\0\0\x0e\x10\0\0\x03\xe8\0\0\0\0\x05\x10\x07example\0\
    \x57\x40\xff\x5d\x59\x63\x06\xbf\xe2\xc5\xc7\xbd\x74\xec\xe6\xc7\
    \x08\x2a\xf6\x19\xd5\x1f\x42\xff\xbb\x83\xf9\x74\xb9\xca\x90\x83";

/// The same with the 500 seconds that are left of the signature at the moment 500 as TTLs (RFC 4035 5.3.3).
const CUT: &[u8] = b"\0\0\x84\0\0\x01\0\x02\0\0\0\0\
    \x03www\x07example\0\0\x01\0\x01\
    \x03www\x07example\0\0\x01\0\x01\0\0\x01\xf4\0\x04\xc0\0\x02\x01\
    \x03www\x07example\0\0\x2e\0\x01\0\0\x01\xf4\0\x3b\
    \0\x01\x0d\x02\0\0\x0e\x10\0\0\x03\xe8\0\0\0\0\x05\x10\x07example\0\
    \x57\x40\xff\x5d\x59\x63\x06\xbf\xe2\xc5\xc7\xbd\x74\xec\xe6\xc7\
    \x08\x2a\xf6\x19\xd5\x1f\x42\xff\xbb\x83\xf9\x74\xb9\xca\x90\x83";

/// Two equal addresses in the answer section, the second's owner in other letters; in the authority section a name server by pointers;
/// and two additional records, an OPT among them.
const TWICE: &[u8] = b"\x12\x34\x81\x80\0\x01\0\x02\0\x01\0\x02\
    \x01x\0\0\x01\0\x01\
    \x01x\0\0\x01\0\x01\0\0\x0e\x10\0\x04\0\0\0\0\
    \x01X\0\0\x01\0\x01\0\0\x0e\x10\0\x04\0\0\0\0\
    \xc0\x0c\0\x02\0\x01\0\0\0\x3c\0\x02\xc0\x0c\
    \x01y\0\0\x01\0\x01\0\0\x0e\x10\0\x04\0\0\0\0\
    \0\0\x29\x10\0\0\0\0\0\0\0";

/// The same without the duplicate, names written out.
const ONCE: &[u8] = b"\x12\x34\x81\x80\0\x01\0\x01\0\x01\0\x02\
    \x01x\0\0\x01\0\x01\
    \x01x\0\0\x01\0\x01\0\0\x0e\x10\0\x04\0\0\0\0\
    \x01x\0\0\x02\0\x01\0\0\0\x3c\0\x03\x01x\0\
    \x01y\0\0\x01\0\x01\0\0\x0e\x10\0\x04\0\0\0\0\
    \0\0\x29\x10\0\0\0\0\0\0\0";

/// Two equal addresses, and an additional record that ends too early.
const BROKEN: &[u8] = b"\0\0\x84\0\0\x01\0\x02\0\0\0\x01\
    \x01x\0\0\x01\0\x01\
    \x01x\0\0\x01\0\x01\0\0\x0e\x10\0\x04\0\0\0\0\
    \x01x\0\0\x01\0\x01\0\0\x0e\x10\0\x04\0\0\0\0\
    \0";

fn message(alloc: Global, octets: &[u8]) -> Result<Message, Fail> {
    match Message::from_octets(octets.to_vec(alloc)?) {
        Ok(message) => Ok(message),
        Err(_) => Err(Fail::new("short")),
    }
}

/// The groups of a message's answer and authority sections.
fn sections(alloc: Global, message: &Message) -> Result<(GroupSet, GroupSet), Fail> {
    let answer = message.answer(alloc)?;
    let authority = message.authority(alloc)?;
    Ok((grouped(alloc, answer)?, grouped(alloc, authority)?))
}

fn grouped(alloc: Global, section: Records) -> Result<GroupSet, Fail> {
    Ok(groups(alloc, section, Seed::fixed())?)
}

/// The groups, each cut by its first signature at a moment, where it has one.
fn bounded<'a>(
    alloc: Global,
    groups: &'a GroupSet,
    now: Timestamp,
) -> Result<Vec<BoundedGroup<'a>>, NoMemory> {
    let mut all = Vec::new(alloc);
    for group in groups.as_slice() {
        let adjust_ttl = match group.sig_set().first() {
            Some(signature) => adjusted_ttl(group, signature, now),
            None => None,
        };
        all.extend_from_slice(&[BoundedGroup { group, adjust_ttl }])?;
    }
    Ok(all)
}

/// The groups, each cut to so many seconds.
fn all_cut<'a>(
    alloc: Global,
    groups: &'a GroupSet,
    bound: Ttl,
) -> Result<Vec<BoundedGroup<'a>>, NoMemory> {
    let mut all = Vec::new(alloc);
    for group in groups.as_slice() {
        let adjust_ttl = Some(bound);
        all.extend_from_slice(&[BoundedGroup { group, adjust_ttl }])?;
    }
    Ok(all)
}

/// What a rewriting at the moment 500 comes to, and the message afterwards.
fn rewriting(alloc: Global, octets: &[u8]) -> Result<(Result<(), RewriteError>, Message), Fail> {
    let mut message = message(alloc, octets)?;
    let (answers, authorities) = sections(alloc, &message)?;
    let now = Timestamp::from_seconds(500);
    let answers = bounded(alloc, &answers, now)?;
    let authorities = bounded(alloc, &authorities, now)?;
    let came_to = rewrite(alloc, &mut message, &answers, &authorities);
    Ok((came_to, message))
}

/// Whether a rewriting succeeds and leaves these octets.
fn leaves(alloc: Global, octets: &[u8], after: &[u8]) -> Result<bool, Fail> {
    let (came_to, message) = rewriting(alloc, octets)?;
    Ok(came_to == Ok(()) && message.as_slice() == after)
}

/// Whether a rewriting fails so and leaves the message as it came.
fn fails(alloc: Global, octets: &[u8], error: RewriteError) -> Result<bool, Fail> {
    let (came_to, message) = rewriting(alloc, octets)?;
    Ok(came_to == Err(error) && message.as_slice() == octets)
}

#[test]
fn ttls_are_cut(rt: HostRuntime) -> Result<(), Fail> {
    assert!(rt; leaves(rt.alloc(), SIGNED, CUT)?);
    assert!(rt; leaves(rt.alloc(), CUT, CUT)?);
    Ok(())
}

#[test]
fn duplicates_go(rt: HostRuntime) -> Result<(), Fail> {
    assert!(rt; leaves(rt.alloc(), TWICE, ONCE)?);
    assert!(rt; leaves(rt.alloc(), ONCE, ONCE)?);
    Ok(())
}

#[test]
fn unreadable_additional_section(rt: HostRuntime) -> Result<(), Fail> {
    assert!(rt; fails(rt.alloc(), BROKEN, RewriteError::ParseError)?);
    Ok(())
}

/// A label of 63 octets, as it is written.
fn push_label(out: &mut Vec<u8>, octet: u8, len: u8) -> Result<(), Fail> {
    out.push(len)?;
    for _ in 0..len {
        out.push(octet)?;
    }
    Ok(())
}

/// An answer of 2,300 different addresses and one of them again, each owner a pointer to the question's name of 255 octets.
fn large(alloc: Global) -> Result<Vec<u8>, Fail> {
    let mut out = b"\0\0\x84\0\0\x01\x08\xfd\0\0\0\0".to_vec(alloc)?;
    for _ in 0..3 {
        push_label(&mut out, b'x', 63)?;
    }
    push_label(&mut out, b'y', 61)?;
    out.extend_from_slice(b"\0\0\x1c\0\x01")?;
    for index in 0..2301u16 {
        out.extend_from_slice(
            b"\xc0\x0c\0\x1c\0\x01\0\0\x0e\x10\0\x10\0\0\0\0\0\0\0\0\0\0\0\0\0\0",
        )?;
        out.extend_from_slice(&(index % 2300).to_be_bytes())?;
    }
    Ok(out)
}

#[test]
fn too_long_a_message(rt: HostRuntime) -> Result<(), Fail> {
    let octets = large(rt.alloc())?;
    assert_eq!(rt; octets.len(), 64699);
    assert!(rt; fails(rt.alloc(), &octets, RewriteError::PushError)?);
    Ok(())
}

/// Whether the message with every TTL of its groups cut to this many seconds has these TTLs in its answer section.
fn has_ttls(alloc: Global, octets: &[u8], bound: u32, ttls: (u32, u32)) -> Result<bool, Fail> {
    let message = message(alloc, octets)?;
    let (answers, authorities) = sections(alloc, &message)?;
    let all = all_cut(alloc, &answers, Ttl::from_secs(bound))?;
    let none = bounded(alloc, &authorities, Timestamp::from_seconds(500))?;
    let Ok(made) = rebuild_msg(alloc, &message, &all, &none) else {
        return Ok(false);
    };
    let answer = made.answer(alloc)?;
    match answer.as_slice() {
        [first, second] => {
            let found = (first.ttl().as_secs(), second.ttl().as_secs());
            Ok(is_due(&all, &none) && found == ttls)
        }
        _ => Ok(false),
    }
}

#[test]
fn no_ttl_rises(rt: HostRuntime) -> Result<(), Fail> {
    assert!(rt; has_ttls(rt.alloc(), CUT, 4000, (500, 500))?);
    assert!(rt; has_ttls(rt.alloc(), CUT, 7, (7, 7))?);
    Ok(())
}
