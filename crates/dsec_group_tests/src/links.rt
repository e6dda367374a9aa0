//! What links keep, and their copies.

ghost use Rattle.std.specs.Prelude.{◌≡◌};
ghost use Rattle.dsec_spec.specs.Numbers.{RRSIG};

use dsec_lines::{KEY, KEY_SIGNATURE, record};
use dsec_link::{Link, LinkKind, Links, RecordSet};
use dsec_name::{NoMemory, Octets};
use dsec_number::Rtype;
use dsec_wire::{Data, Record};
use std::alloc::Global;

/// The link of a key set from its own key, an anchor.
fn link_of(alloc: Global, keys: RecordSet, key: &Octets, rrsig: &Data) -> Result<Link, NoMemory>
    requires { rrsig.now.rtype ≡ RRSIG }
{
    let via = key.clone()?;
    let signing_key = key.clone()?;
    let kept = rrsig.clone()?;
    Link::new(
        alloc,
        LinkKind::AnchorKey,
        keys,
        Some(via),
        signing_key,
        kept,
    )
}

fn is_key_link(link: &Link) -> bool {
    link.kind() == LinkKind::AnchorKey
        && link.signing_key().as_slice() == b"\x01\x01\x03\x0d\x01\x02".as_slice()
        && link.records().rtype() == Rtype::DNSKEY
        && link.rrsig().key_tag == 1296
}

/// Whether a copy of the links is the link alone.
fn is_copied(links: &Links) -> bool {
    match links.clone() {
        Ok(copy) => match copy.as_slice() {
            [link] => is_key_link(link),
            _ => false,
        },
        Err(_) => false,
    }
}

fn is_kept(alloc: Global, link: Link) -> bool {
    let mut links = Vec::new(alloc);
    match links.push(link) {
        Ok(()) => is_copied(&Links::new(links)),
        Err(_) => false,
    }
}

fn is_link_of(alloc: Global, key: &Record, made: &Record) -> bool {
    if made.rtype() != Rtype::RRSIG {
        return false;
    }
    let Ok(keys) = RecordSet::from_records(alloc, key, &[]) else {
        return false;
    };
    if !keys.has_data(key.rdata().octets()) {
        return false;
    }
    match link_of(alloc, keys, key.rdata().octets(), made.rdata()) {
        Ok(link) => is_kept(alloc, link),
        Err(_) => false,
    }
}

#[test]
fn links_keep_their_parts(rt: HostRuntime) {
    let alloc = rt.alloc();
    match (record(alloc, KEY), record(alloc, KEY_SIGNATURE)) {
        (Some(key), Some(made)) => assert!(rt; is_link_of(alloc, &key, &made)),
        _ => assert!(rt; false),
    }
}
