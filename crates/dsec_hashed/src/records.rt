//! NSEC3 records of hashed names, and the NSEC3PARAM record (RFC 5155 3, 4, 7.1).

ghost use Rattle.std.specs.Prelude.{◌≡◌, ◌≤◌, ◌∷◌, map, IfOk};
ghost use Rattle.dsec_spec.specs.Base32hex.{base32hex};
ghost use Rattle.dsec_spec.specs.Names.{IsName, wire_length};
ghost use Rattle.dsec_spec.specs.Nsec3Chains.{nsec3param_record};
ghost use Rattle.dsec_hashed.specs.Config.{hashing_of};
ghost use Rattle.dsec_hashed.specs.HashedViews.{hashed_view};
ghost use Rattle.dsec_hashed.specs.Nsec3Made.{AreMadeOf, IsMadeOf, hash_after};

use crate::bits::push_types;
use crate::data::{nsec3_data, nsec3param_data};
use crate::label::{LABEL_SIZE, push_label};
use crate::names::HashedName;
use dsec_name::{Name, NoMemory};
use dsec_number::{Class, Rtype, Ttl};
use dsec_sorted::Nsec3Config;
use dsec_wire::Record;
use std::alloc::Global;

/// What the records of a chain have in common.
#[derive(Clone, Copy)]
pub(crate) struct Common<'a> {
    /// The zone's apex.
    pub(crate) apex: &'a Name,
    /// The class of the records.
    pub(crate) class: Class,
    /// How long they are kept.
    pub(crate) ttl: Ttl,
    /// How names are hashed.
    pub(crate) config: &'a Nsec3Config,
}

/// The NSEC3 records of names that are in the order of their hashes.
pub(crate) fn nsec3_records(
    alloc: Global,
    common: &Common<'_>,
    names: &[HashedName<'_>],
) -> Result<Vec<Record>, NoMemory>
    requires { wire_length common.now.apex.now ≤ 222 }
    ensures { IfOk result (λ nsec3s. AreMadeOf (hashing_of common.now.config.now) common.now.apex.now common.now.class common.now.ttl (map hashed_view names.now) nsec3s.items) }
{
    let mut nsec3s = Vec::with_capacity(alloc, names.len())?;
    let mut types = Vec::new(alloc);
    let Some(first) = names.first() else {
        return Ok(nsec3s);
    };
    for i in 0..names.len() {
        let (_, after) = names.split_at(i + 1);
        let next = next_hash(first, after);
        nsec3s.push(nsec3_record(alloc, common, &names[i], next, &mut types)?)?;
    }
    Ok(nsec3s)
}

/// The hash of the first of the names; where there is none, that of the first of all.
fn next_hash<'a>(first: &'a HashedName<'_>, names: &'a [HashedName<'_>]) -> &'a [u8; 20]
    ensures { result.now ≡ hash_after first.now.hash (map hashed_view names.now) }
{
    match names.first() {
        Some(one) => &one.hash,
        None => &first.hash,
    }
}

/// A name's NSEC3 record. What `types` holds doesn't matter.
fn nsec3_record(
    alloc: Global,
    common: &Common<'_>,
    one: &HashedName<'_>,
    next: &[u8; 20],
    types: &mut Vec<Rtype>,
) -> Result<Record, NoMemory>
    requires { wire_length common.now.apex.now ≤ 222 }
    ensures { IfOk result (λ r. IsMadeOf (hashing_of common.now.config.now) common.now.apex.now common.now.class common.now.ttl (hashed_view one.now) next.now r) }
{
    types.clear();
    push_types(types, common.apex, one)?;
    let rdata = nsec3_data(alloc, common.config, next, types)?;
    let owner = hashed_owner(alloc, &one.hash, common.apex)?;
    Ok(Record::new(owner, common.class, common.ttl, rdata))
}

/// A hash as a label before the apex.
fn hashed_owner(alloc: Global, hash: &[u8; 20], apex: &Name) -> Result<Name, NoMemory>
    requires { wire_length apex.now ≤ 222 }
    ensures name { IfOk result (λ owner. owner ≡ base32hex hash.now ∷ apex.now) }
    ensures fits { IfOk result (λ _. IsName (base32hex hash.now ∷ apex.now)) }
{
    let mut octets = Vec::new(alloc);
    octets.push(LABEL_SIZE)?;
    push_label(&mut octets, hash)?;
    apex.compose(&mut octets)?;
    match Name::from_wire(alloc, &octets) {
        Ok(owner) => Ok(owner),
        // The octets are a name's.
        Err(_) => Err(NoMemory),
    }
}

/// The NSEC3PARAM record at the apex.
pub(crate) fn nsec3param(alloc: Global, common: &Common<'_>) -> Result<Record, NoMemory>
    ensures { IfOk result (λ r. r ≡ nsec3param_record (hashing_of common.now.config.now) common.now.apex.now common.now.class common.now.ttl) }
{
    let rdata = nsec3param_data(alloc, common.config)?;
    let apex = copied(common.apex)?;
    Ok(Record::new(apex, common.class, common.ttl, rdata))
}

/// A copy of a name.
fn copied(name: &Name) -> Result<Name, NoMemory>
    ensures { IfOk result (λ copy. copy ≡ name.now) }
{
    Ok(name.clone()?)
}
