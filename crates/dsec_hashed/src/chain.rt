//! The chain of NSEC3 records of a zone (RFC 5155 7.1).

ghost use Rattle.std.specs.Prelude.{◌≡◌, ◌≢◌, ◌≤◌, ◌↔◌, length, map, IfErr, IfOk, IsErrOf};
ghost use Rattle.dsec_spec.specs.Names.{place, wire_length};
ghost use Rattle.dsec_spec.specs.CanonicalRecords.{AreOfOneClass, IsCanonical};
ghost use Rattle.dsec_spec.specs.Nsec3Chains.{IsNsec3Chain, nsec3param_record};
ghost use Rattle.dsec_spec.specs.ZonesOfRecords.{soas_at};
ghost use Rattle.dsec_sorted.specs.IterViews.{left_of};
ghost use Rattle.dsec_hashed.specs.Config.{hashing_of};
ghost use Rattle.dsec_hashed.specs.Hashed.{AreHashed, begins_with, first_twins, has_twins};
ghost use Rattle.dsec_hashed.specs.HashedViews.{hashed_view};
ghost use Rattle.dsec_hashed.specs.Nsec3Made.{AreMadeOf};
ghost use Rattle.dsec_hashed.specs.Refusals.{Fits, IsRefusal};

use crate::names::{HashedName, hashed_names, keep_owing, sort_by_hash};
use crate::records::{Common, nsec3_records, nsec3param};
use dsec_chain::{DenialError, Nsec3HashError, chain_ttl, inside_owners, the_soa};
use dsec_name::{Name, NoMemory};
use dsec_sorted::{Nsec3Config, RecordsIter};
use dsec_wire::Record;
use std::alloc::Global;

/// The NSEC3 records of a zone, and its NSEC3PARAM record.
#[derive(Drop)]
pub struct Nsec3Records {
    /// The NSEC3 records, in the order of their hashes.
    pub nsec3s: Vec<Record>,
    /// The NSEC3PARAM record.
    pub nsec3param: Record,
}

/// What an NSEC3 owner has on the wire besides the apex: a label of 32 octets with its length.
const LABEL_OCTETS: usize = 33;

/// How many octets a name has at most on the wire (RFC 1035 2.3.4).
const MAX_NAME: usize = 255;

/// The NSEC3 records of the zone that records in canonical order make, without duplicates and of one class: one of each owner at or below
/// the apex and not strictly below a delegation, and of each empty non-terminal above one, with Opt-Out but for delegations without DS.
/// It takes one pass over the records, one hash for each name, and a sort of the hashes.
pub fn generate_nsec3s(
    alloc: Global,
    apex: &Name,
    records: RecordsIter<'_>,
    config: &Nsec3Config,
) -> Result<Nsec3Records, DenialError>
    requires canonical { IsCanonical (left_of records) }
    requires class { AreOfOneClass (left_of records) }
    ensures chain { IfOk result (λ made. IsNsec3Chain (hashing_of config.now) apex.now (left_of records.entry) made.nsec3s.items made.nsec3param) }
    ensures soa { IsErrOf result DenialError.SoaRecordCouldNotBeDetermined ↔ (length (soas_at (place apex.now) (left_of records.entry)) ≢ 1) }
    ensures fits { IfOk result (λ _. Fits (hashing_of config.now) apex.now (left_of records.entry)) }
    ensures refusal { IfErr result (λ e. IsRefusal (hashing_of config.now) apex.now (left_of records.entry) e) }
{
    let Some(soa) = the_soa(apex, records.as_slice()) else {
        return Err(DenialError::SoaRecordCouldNotBeDetermined);
    };
    let names = names_of_zone(alloc, apex, &records, config)?;
    if have_collision(&names) {
        return Err(DenialError::Nsec3Hashing(Nsec3HashError::CollisionDetected));
    }
    if apex.wire_len() + LABEL_OCTETS > MAX_NAME {
        return Err(DenialError::Nsec3Hashing(Nsec3HashError::Nsec3NameTooLong));
    }
    let common = Common {
        apex,
        class: soa.class(),
        ttl: chain_ttl(soa),
        config,
    };
    let made = records_of(alloc, &common, &names)?;
    Ok(made)
}

/// The names that the zone hashes, in the order of their hashes.
fn names_of_zone<'a>(
    alloc: Global,
    apex: &Name,
    records: &RecordsIter<'a>,
    config: &Nsec3Config,
) -> Result<Vec<HashedName<'a>>, NoMemory>
    requires canonical { IsCanonical (left_of records.now) }
    requires class { AreOfOneClass (left_of records.now) }
    requires soa { length (soas_at (place apex.now) (left_of records.now)) ≡ 1 }
    ensures { IfOk result (λ names. AreHashed (hashing_of config.now) (place apex.now) (left_of records.now) (map hashed_view names.items)) }
{
    let mut owners = inside_owners(alloc, apex, records)?;
    keep_owing(&mut owners, config.opt_out);
    let mut names = hashed_names(alloc, apex, &owners, config)?;
    sort_by_hash(&mut names);
    Ok(names)
}

/// Whether two names that stand side by side have one hash.
fn have_collision(names: &[HashedName<'_>]) -> bool
    ensures { result ≡ has_twins (map hashed_view names.now) }
{
    let mut found = false;
    for i in 0..names.len() {
        let (_, rest) = names.split_at(i);
        found |= begin_with_twins(rest);
    }
    found
}

/// Whether the first two names have one hash.
fn begin_with_twins(names: &[HashedName<'_>]) -> bool
    ensures { result ≡ first_twins (map hashed_view names.now) }
{
    match names.split_first() {
        Some((first, after)) => is_hash_of_first(&first.hash, after),
        None => false,
    }
}

/// Whether a hash is that of the first of the names.
fn is_hash_of_first(hash: &[u8; 20], names: &[HashedName<'_>]) -> bool
    ensures { result ≡ begins_with hash.now (map hashed_view names.now) }
{
    match names.first() {
        Some(one) => *hash == one.hash,
        None => false,
    }
}

/// The records of names that are in the order of their hashes.
fn records_of(
    alloc: Global,
    common: &Common<'_>,
    names: &[HashedName<'_>],
) -> Result<Nsec3Records, NoMemory>
    requires { wire_length common.now.apex.now ≤ 222 }
    ensures nsec3s { IfOk result (λ made. AreMadeOf (hashing_of common.now.config.now) common.now.apex.now common.now.class common.now.ttl (map hashed_view names.now) made.nsec3s.items) }
    ensures param { IfOk result (λ made. made.nsec3param ≡ nsec3param_record (hashing_of common.now.config.now) common.now.apex.now common.now.class common.now.ttl) }
{
    let nsec3s = nsec3_records(alloc, common, names)?;
    let nsec3param = nsec3param(alloc, common)?;
    Ok(Nsec3Records { nsec3s, nsec3param })
}
