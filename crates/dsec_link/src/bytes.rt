//! The octets that a signature is over (RFC 4034 3.1.8.1).

ghost use Rattle.std.specs.Prelude.{◌≡◌, ◌++◌, IfOk, OnErr, OnOk, drop, length, map, take};
ghost use Rattle.std.specs.Int.{to_be_bytes, w16};
ghost use Rattle.std.specs.List.{flat_map};
ghost use Rattle.dsec_spec.specs.Names.{canonical_octets};
ghost use Rattle.dsec_spec.specs.Records.{fixed_octets};
ghost use Rattle.dsec_spec.specs.SignedBytes.{signed_owner, signed_bytes as signed_bytes_of};
ghost use Rattle.dsec_wire.specs.Views.{rrsig_view};
ghost use Rattle.dsec_link.specs.Sets.{AreRecordsOf, canonical_of, canonicals_in};
ghost use Rattle.dsec_link.specs.Signing.{encloser_of, front_octets, head_octets, whole_record};

use crate::canonical::ordered_datas;
use dsec_name::{Name, NoMemory, Octets};
use dsec_number::{Class, Rtype};
use dsec_wire::{Data, Record, Rrsig};
use std::alloc::Global;

/// The octets up to the length of a record's data at most: a name, a type, a class and a TTL.
const MAX_FRONT: usize = 263;

/// The octets of an RRSIG's data up to the signature at most.
const MAX_HEAD: usize = 273;

/// Most signed octets are no more than these.
pub(crate) const USUAL_BYTES: usize = 512;

/// The octets that a signature over the set of these records is over, whose owner, class and type are given (RFC 4034
/// 3.1.8.1): the RRSIG's data up to the signature, and each record with the original TTL, in the order of their canonical
/// data. No set is made.
pub fn signed_bytes(
    alloc: Global,
    rrsig: &Rrsig<'_>,
    owner: &Name,
    class: Class,
    rtype: Rtype,
    records: &[Record],
) -> Result<Vec<u8>, NoMemory>
    requires { AreRecordsOf rtype records.now }
    ensures { IfOk result (λ out. out.items ≡ signed_bytes_of (rrsig_view rrsig.now) (record { owner = owner.now; class = class; rtype = rtype; datas = map (λ r. r.rdata) records.now })) }
{
    let datas = ordered_datas(alloc, records)?;
    let front = front_of(alloc, rrsig, owner, class, rtype)?;
    let mut size = MAX_HEAD;
    for one in &datas {
        size = size.saturating_add(front.len() + 2 + one.octets().len());
    }
    let mut out = Vec::with_capacity(alloc, size)?;
    push_head(&mut out, rrsig)?;
    push_all(&mut out, &front, &datas)?;
    Ok(out)
}

/// The rightmost labels of an owner that has more than these; none for another.
pub(crate) fn encloser(labels: u8, owner: &Name) -> Result<Option<Name>, NoMemory>
    ensures { IfOk result (λ found. found ≡ encloser_of labels owner.now) }
{
    let count = owner.label_count() - 1;
    let labels = usize::from(labels);
    if count <= labels {
        return Ok(None);
    }
    let mut name = owner.clone()?;
    for _ in 0..count - labels {
        name = without_first(&name)?;
    }
    Ok(Some(name))
}

/// A name without its leftmost label; the root stays.
#[tactic(auto, using(crate::proofs::NameParts::parent_drops, crate::proofs::NameParts::no_parent))]
fn without_first(name: &Name) -> Result<Name, NoMemory>
    ensures { IfOk result (λ rest. rest ≡ drop 1 name.now) }
{
    match name.parent()? {
        Some(parent) => Ok(parent),
        None => Ok(name.clone()?),
    }
}

/// What stands before the length of each record's data, as it is signed.
pub(crate) fn front_of(
    alloc: Global,
    rrsig: &Rrsig<'_>,
    owner: &Name,
    class: Class,
    rtype: Rtype,
) -> Result<Vec<u8>, NoMemory>
    ensures { IfOk result (λ out. out.items ≡ front_octets (rrsig_view rrsig.now) owner.now class rtype) }
{
    let mut out = Vec::with_capacity(alloc, MAX_FRONT)?;
    push_signed_owner(&mut out, rrsig.labels, owner)?;
    out.extend_from_slice(&rtype.to_int().to_be_bytes())?;
    out.extend_from_slice(&class.to_int().to_be_bytes())?;
    out.extend_from_slice(&rrsig.original_ttl.as_secs().to_be_bytes())?;
    Ok(out)
}

/// Adds the RRSIG's data up to the signature. Where memory is wanting, a part of it may be there.
pub fn push_head(out: &mut Vec<u8>, rrsig: &Rrsig<'_>) -> Result<(), NoMemory>
    ensures ok { OnOk result (out.new.items ≡ out.old.items ++ head_octets (rrsig_view rrsig.now)) }
    ensures err { OnErr result (take (length out.old.items) out.new.items ≡ out.old.items) }
{
    push_fixed(out, rrsig)?;
    rrsig.signer_name.compose_canonical(out)
}

/// Adds records by their front and their data.
fn push_all(out: &mut Vec<u8>, front: &[u8], datas: &[&Data]) -> Result<(), NoMemory>
    ensures { OnOk result (out.new.items ≡ out.old.items ++ flat_map (whole_record front.now) (canonicals_in datas.now)) }
{
    for one in datas {
        push_data(out, front, one)?;
    }
    Ok(())
}

/// Adds a record by its front and its data, which are as many octets when they are signed.
fn push_data(out: &mut Vec<u8>, front: &[u8], one: &Data) -> Result<(), NoMemory>
    ensures { OnOk result (out.new.items ≡ out.old.items ++ whole_record front.now (canonical_of one.now)) }
{
    push_front(out, front, one.octets().len())?;
    one.compose_canonical(out)?;
    Ok(())
}

/// Adds a record's front, and how many octets its data are, at most 65535.
fn push_front(out: &mut Vec<u8>, front: &[u8], size: usize) -> Result<(), NoMemory>
    ensures { OnOk result (out.new.items ≡ out.old.items ++ front.now ++ to_be_bytes w16 size) }
{
    out.extend_from_slice(front)?;
    out.extend_from_slice(&((size % 65536) as u16).to_be_bytes())?;
    Ok(())
}

/// Adds the 18 octets before the signer's name (RFC 4034 3.1). Where memory is wanting, a part of it may be there.
pub fn push_fixed(out: &mut Vec<u8>, rrsig: &Rrsig<'_>) -> Result<(), NoMemory>
    ensures ok { OnOk result (out.new.items ≡ out.old.items ++ fixed_octets (rrsig_view rrsig.now)) }
    ensures err { OnErr result (take (length out.old.items) out.new.items ≡ out.old.items) }
{
    out.extend_from_slice(&rrsig.type_covered.to_int().to_be_bytes())?;
    out.extend_from_slice(&[rrsig.algorithm.to_int(), rrsig.labels])?;
    out.extend_from_slice(&rrsig.original_ttl.as_secs().to_be_bytes())?;
    out.extend_from_slice(&rrsig.expiration.to_int().to_be_bytes())?;
    out.extend_from_slice(&rrsig.inception.to_int().to_be_bytes())?;
    out.extend_from_slice(&rrsig.key_tag.to_be_bytes())?;
    Ok(())
}

/// Adds the owner as it is signed: a wildcard, where the signature counts fewer labels (RFC 4035 5.3.2).
fn push_signed_owner(out: &mut Vec<u8>, labels: u8, owner: &Name) -> Result<(), NoMemory>
    ensures { OnOk result (out.new.items ≡ out.old.items ++ canonical_octets (signed_owner labels owner.now)) }
{
    match encloser(labels, owner)? {
        Some(encloser) => {
            out.extend_from_slice(&[1, b'*'])?;
            encloser.compose_canonical(out)
        }
        None => owner.compose_canonical(out),
    }
}

/// Adds a record by its front and its canonical data, which are at most 65535 octets.
pub(crate) fn push_record(
    out: &mut Vec<u8>,
    front: &[u8],
    canonical: &Octets,
) -> Result<(), NoMemory>
    ensures { OnOk result (out.new.items ≡ out.old.items ++ whole_record front.now canonical.now) }
{
    out.extend_from_slice(front)?;
    out.extend_from_slice(&((canonical.len() % 65536) as u16).to_be_bytes())?;
    out.extend_from_slice(canonical.as_slice())?;
    Ok(())
}
