//! Settings and their ends; nodes that are bogus, for how long they count, and the caches that hold them; the keys of a zone.

ghost use Rattle.std.specs.Prelude.{◌≡◌, ◌≤◌};
ghost use Rattle.dsec_spec.specs.Numbers.{DNSKEY};

use dsec_cause::Cause;
use dsec_crypto::StandIn;
use dsec_group::{Group, Seed, ValidationState, groups};
use dsec_keys::KeyList;
use dsec_lines::{KEY, KEY_SIGNATURE, name, record, records};
use dsec_link::LinkKind;
use dsec_name::{Name, NoMemory};
use dsec_node::{Caches, Config, Keys, Node, OwnedCaches, bogus_node, kept_for, link_by_keys};
use dsec_number::{Rtype, SecurityAlgorithm};
use dsec_wire::{Dnskey, Records};
use std::alloc::Global;
use std::process::Abort;
use std::sync::Arc;

fn are_defaults(config: &Config) -> bool {
    config.max_node_cache() == 100
        && config.max_nsec3_cache() == 100
        && config.max_isig_cache() == 1000
        && config.max_usig_cache() == 1000
        && config.max_validity() == 604_800
        && config.max_bogus_validity() == 30
        && config.max_bad_signatures() == 1
        && config.nsec3_iter_insecure() == 100
        && config.nsec3_iter_bogus() == 500
        && config.max_cname_dname() == 11
        && config.max_ds_records() == 20
        && config.max_dnskeys_per_ds() == 4
        && config.max_nsec3_hashes() == 60
}

fn are_least(config: &Config) -> bool {
    config.max_node_cache() == 1
        && config.max_nsec3_cache() == 1
        && config.max_isig_cache() == 1
        && config.max_usig_cache() == 1
        && config.max_validity() == 60
        && config.max_bogus_validity() == 1
        && config.max_bad_signatures() == 1
        && config.nsec3_iter_insecure() == 0
        && config.nsec3_iter_bogus() == 0
        && config.max_cname_dname() == 0
        && config.max_ds_records() == 1
        && config.max_dnskeys_per_ds() == 1
        && config.max_nsec3_hashes() == 1
}

fn are_greatest(config: &Config) -> bool {
    config.max_node_cache() == 1_000_000_000
        && config.max_nsec3_cache() == 1_000_000_000
        && config.max_isig_cache() == 1_000_000_000
        && config.max_usig_cache() == 1_000_000_000
        && config.max_validity() == 6_048_000
        && config.max_bogus_validity() == 300
        && config.max_bad_signatures() == 8
        && config.nsec3_iter_insecure() == 500
        && config.nsec3_iter_bogus() == 500
        && config.max_cname_dname() == 100
        && config.max_ds_records() == 100
        && config.max_dnskeys_per_ds() == 100
        && config.max_nsec3_hashes() == 100
}

/// Sets each setting to a value below its least, where there is one.
fn lower(config: &mut Config) {
    config.set_max_node_cache(0);
    config.set_max_nsec3_cache(0);
    config.set_max_isig_cache(0);
    config.set_max_usig_cache(0);
    config.set_max_validity(59);
    config.set_max_bogus_validity(0);
    config.set_bad_signatures(0);
    config.set_nsec3_iter_insecure(0);
    config.set_nsec3_iter_bogus(0);
    config.set_max_cname_dname(0);
    config.set_max_ds_records(0);
    config.set_max_dnskeys_per_ds(0);
    config.set_max_nsec3_hashes(0);
}

/// Sets each setting to the value above its greatest.
fn raise(config: &mut Config) {
    config.set_max_node_cache(1_000_000_001);
    config.set_max_nsec3_cache(1_000_000_001);
    config.set_max_isig_cache(1_000_000_001);
    config.set_max_usig_cache(1_000_000_001);
    config.set_max_validity(6_048_001);
    config.set_max_bogus_validity(301);
    config.set_bad_signatures(9);
    config.set_nsec3_iter_insecure(501);
    config.set_nsec3_iter_bogus(501);
    config.set_max_cname_dname(101);
    config.set_max_ds_records(101);
    config.set_max_dnskeys_per_ds(101);
    config.set_max_nsec3_hashes(101);
}

#[test]
fn settings_stay_between_their_ends(rt: HostRuntime) {
    let mut config = Config::default();
    assert!(rt; are_defaults(&config));
    lower(&mut config);
    assert!(rt; are_least(&config));
    raise(&mut config);
    assert!(rt; are_greatest(&config));
}

#[test]
fn bounds_and_limits_are_the_settings(rt: HostRuntime) {
    let mut config = Config::new();
    config.set_bad_signatures(3);
    config.set_max_dnskeys_per_ds(7);
    let bounds = config.bounds();
    assert_eq!(rt; bounds.room, 4);
    assert_eq!(rt; bounds.max_keys_for_ds, 7);
    assert_eq!(rt; bounds.max_ds_records, 20);
    assert_eq!(rt; config.limits().max_bad_signatures, 3);
    assert_eq!(rt; config.limits().max_nsec3_hashes, 60);
    match config.clone() {
        Ok(copy) => assert_eq!(rt; copy.max_bad_signatures(), 3),
        Err(_) => assert!(rt; false),
    }
}

/// A bogus node at a name, made at the moment 1000.
fn bogus_at(alloc: Global, text: &str) -> Option<Node<StandIn>> {
    let at = name(alloc, text)?;
    let bounds = Config::new().bounds();
    match bogus_node::<StandIn>(alloc, &bounds, 1000, &at, Cause::NoSignature) {
        Ok(node) => Some(node),
        Err(NoMemory) => None,
    }
}

fn tells_its_cause(node: &Node<StandIn>) -> bool {
    node.validation_state() == ValidationState::Bogus
        && node.extended_error() == Some(Cause::NoSignature)
        && node.keys().is_empty()
        && node.apex_keys().is_none()
        && node.chain().is_empty()
        && node.anchor().is_none()
        && node.cause().is_none()
        && *node.name() == *node.signer_name()
        && !node.intermediate()
}

/// Whether it counts from the moment 1000 until 1030, and is kept for 30 seconds.
fn lasts(node: &Node<StandIn>) -> bool {
    node.expired(999)
        && !node.expired(1000)
        && !node.expired(1030)
        && node.expired(1031)
        && node.ttl(999) == 0
        && node.ttl(1000) == 30
        && node.ttl(1029) == 1
        && node.ttl(1030) == 0
        && node.ttl(2000) == 0
}

#[test]
fn a_bogus_node_tells_its_cause_and_counts_for_nobody(rt: HostRuntime) {
    let Some(node) = bogus_at(rt.alloc(), "a.example.") else {
        return assert!(rt; false);
    };
    assert!(rt; tells_its_cause(&node));
    assert!(rt; lasts(&node));
    assert!(rt; !node.counts(node.name(), node.name(), &[], &node.bounds(), 1000));
    match node.clone() {
        Ok(copy) => {
            assert!(rt; tells_its_cause(&copy));
            assert!(rt; lasts(&copy));
        }
        Err(_) => assert!(rt; false),
    }
}

/// Whether caches give a node for a name, and which.
fn given(caches: &mut OwnedCaches<StandIn>, at: &Name) -> Option<Arc<Node<StandIn>>> {
    match caches.get(at) {
        Ok(found) => found,
        Err(NoMemory) => None,
    }
}

fn put(alloc: Global, caches: &mut OwnedCaches<StandIn>, at: Name, node: Node<StandIn>) -> bool {
    match Arc::new(alloc, node) {
        Ok(node) => caches.put(at, &node).is_ok(),
        Err(_) => false,
    }
}

fn is_held(alloc: Global, caches: &mut OwnedCaches<StandIn>, text: &str) -> bool {
    match name(alloc, text) {
        Some(at) => match given(caches, &at) {
            Some(node) => *node.name() == at,
            None => false,
        },
        None => false,
    }
}

fn put_at(alloc: Global, caches: &mut OwnedCaches<StandIn>, text: &str) -> bool {
    match (name(alloc, text), bogus_at(alloc, text)) {
        (Some(at), Some(node)) => put(alloc, caches, at, node),
        _ => false,
    }
}

#[test]
fn caches_give_what_was_put(rt: HostRuntime) {
    let alloc = rt.alloc();
    let mut caches = OwnedCaches::new(alloc);
    assert!(rt; !is_held(alloc, &mut caches, "a.example."));
    assert!(rt; put_at(alloc, &mut caches, "a.Example."));
    assert!(rt; put_at(alloc, &mut caches, "b.example."));
    assert!(rt; is_held(alloc, &mut caches, "A.example."));
    assert!(rt; is_held(alloc, &mut caches, "b.example."));
    assert!(rt; !is_held(alloc, &mut caches, "example."));
    assert!(rt; caches.wants() == 0);
    caches.clear();
    assert!(rt; !is_held(alloc, &mut caches, "a.example."));
    assert!(rt; caches.wants() == 0);
}

/// Whether the keys of a set are the one key, of the tag 1296, in data and in a link.
fn is_keyed(alloc: Global, group: &Group) -> Result<bool, NoMemory> {
    if group.rtype() != Rtype::DNSKEY || group.sig_set_len() != 1 {
        return Ok(false);
    }
    let Some(key) = first_key(group) else {
        return Ok(false);
    };
    let keys = Keys::of(alloc, group)?;
    let saying = keys.data_saying(alloc, &key)?;
    let link = link_by_keys(alloc, LinkKind::Set, group, 0, &keys, &key)?;
    Ok(
        is_named_once(&keys, key.algorithm)
            && keys.datas().len() == 1
            && saying.as_slice() == b"\x01\x01\x03\x0d\x01\x02".as_slice()
            && link.signing_key().as_slice() == saying.as_slice()
            && link.rrsig().key_tag == 1296,
    )
}

/// The first key of a set.
fn first_key(group: &Group) -> Option<Dnskey<'_>> {
    group.rr_set().first()?.rdata().dnskey()
}

/// Whether one key of the algorithm has the tag 1296 and no other tag, and none of another algorithm has it.
fn is_named_once(keys: &Keys, algorithm: SecurityAlgorithm) -> bool {
    keys.next_named(algorithm, 1296, 0) == Some(0)
        && keys.next_named(algorithm, 1296, 1).is_none()
        && keys.next_named(algorithm, 1295, 0).is_none()
        && keys.next_named(algorithm, 1297, 0).is_none()
        && keys
            .next_named(SecurityAlgorithm::ED25519, 1296, 0)
            .is_none()
}

#[test]
fn keys_are_those_of_the_set(rt: HostRuntime) {
    let alloc = rt.alloc();
    let Some(section) = records(alloc, &[KEY, KEY_SIGNATURE]) else {
        return assert!(rt; false);
    };
    let Ok(found) = groups(alloc, Records::new(section), Seed::fixed()) else {
        return assert!(rt; false);
    };
    match found.as_slice() {
        [group] => match is_keyed(alloc, group) {
            Ok(yes) => assert!(rt; yes),
            Err(NoMemory) => assert!(rt; false),
        },
        _ => assert!(rt; false),
    }
}
