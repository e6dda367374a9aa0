//! The signed octets of records, which come into the order of their canonical data (RFC 4034 3.1.8.1, 6.3).

ghost use Rattle.std.specs.Prelude.{◌≡◌, ◌++◌, IfOk, IsPermutation, OnErr, OnOk, length, map};
ghost use Rattle.std.specs.List.{flat_map};
ghost use Rattle.dsec_spec.specs.SignedBytes.{ascending};
ghost use Rattle.dsec_wire.specs.Views.{rrsig_view};
ghost use Rattle.dsec_link.specs.Sets.{OfOneType, canonical_record};
ghost use Rattle.dsec_link.specs.Signing.{signed_of, whole_record};
ghost use Rattle.dsec_link.specs.Keyed.{IsInOrder, canonicals, keyed_of, wholes};

use crate::bytes::{USUAL_BYTES, front_of, push_head, push_record};
use crate::canonical::canonical;
use dsec_name::{NoMemory, Octets};
use dsec_wire::{Record, Rrsig};
use std::alloc::Global;

/// A record with its canonical data.
#[derive(Drop)]
struct Keyed {
    canonical: Octets,
    whole: Record,
}

/// Adds the octets that the signature over the records is over, and brings the records into order.
pub(crate) fn push_signed(
    alloc: Global,
    rrsig: &Rrsig<'_>,
    buf: &mut Vec<u8>,
    records: &mut [Record],
) -> Result<(), NoMemory>
    requires { OfOneType records.old }
    ensures ok { OnOk result (buf.new.items ≡ buf.old.items ++ signed_of (rrsig_view rrsig.now) records.old) }
    ensures sorted { OnOk result (map canonical_record records.new ≡ ascending (map canonical_record records.old)) }
    ensures permuted { IsPermutation records.old records.new }
    ensures unchanged { OnErr result (buf.new.items ≡ buf.old.items) }
    ensures kept { OnErr result (records.new ≡ records.old) }
{
    let all = in_order(alloc, records)?;
    let bytes = bytes_of(alloc, rrsig, records, &all)?;
    buf.extend_from_slice(&bytes)?;
    put_back(records, all);
    Ok(())
}

/// The records with their canonical data, in the order of these.
fn in_order(alloc: Global, records: &[Record]) -> Result<Vec<Keyed>, NoMemory>
    ensures { IfOk result (λ all. IsInOrder records.now all.items) }
{
    let mut all = all_keyed(alloc, records)?;
    all.sort_by(|a, b| a.canonical.cmp(&b.canonical))?;
    Ok(all)
}

/// The records with their canonical data.
fn all_keyed(alloc: Global, records: &[Record]) -> Result<Vec<Keyed>, NoMemory>
    ensures { IfOk result (λ all. all.items ≡ map keyed_of records.now) }
{
    let mut all = Vec::with_capacity(alloc, records.len())?;
    for record in records {
        all.push(keyed_one(alloc, record)?)?;
    }
    Ok(all)
}

/// A record with its canonical data.
fn keyed_one(alloc: Global, one: &Record) -> Result<Keyed, NoMemory>
    ensures { IfOk result (λ pair. pair ≡ keyed_of one.now) }
{
    let canonical = canonical(alloc, one.rdata())?;
    let whole = one.clone()?;
    Ok(Keyed { canonical, whole })
}

/// The signed octets of records, by their canonical data in order.
fn bytes_of(
    alloc: Global,
    rrsig: &Rrsig<'_>,
    records: &[Record],
    all: &[Keyed],
) -> Result<Vec<u8>, NoMemory>
    requires typed { OfOneType records.now }
    requires ordered { IsInOrder records.now all.now }
    ensures { IfOk result (λ out. out.items ≡ signed_of (rrsig_view rrsig.now) records.now) }
{
    let mut out = Vec::with_capacity(alloc, USUAL_BYTES)?;
    push_head(&mut out, rrsig)?;
    let Some(first) = records.first() else {
        return Ok(out);
    };
    let front = front_of(alloc, rrsig, first.owner(), first.class(), first.rtype())?;
    push_all(&mut out, &front, all)?;
    Ok(out)
}

/// Adds records by their front and their canonical data.
fn push_all(out: &mut Vec<u8>, front: &[u8], all: &[Keyed]) -> Result<(), NoMemory>
    ensures { OnOk result (out.new.items ≡ out.old.items ++ flat_map (whole_record front.now) (canonicals all.now)) }
{
    for one in all {
        push_record(out, front, &one.canonical)?;
    }
    Ok(())
}

/// Puts the records in the place of those that were there.
fn put_back(records: &mut [Record], mut all: Vec<Keyed>)
    requires { length records.old ≡ length all.items }
    ensures { records.new ≡ wholes all.items }
{
    while let Some(one) = all.pop() {
        records[all.len()] = one.whole;
    }
}
