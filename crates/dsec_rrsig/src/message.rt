//! The octets that a signature is over, and the record that has it (RFC 4034 3.1, 3.1.8.1).

ghost use Rattle.std.specs.Prelude.{◌≡◌, ◌≤◌, ◌++◌, [], length, IfOk, OnOk};
ghost use Rattle.std.specs.List.{flat_map};
ghost use Rattle.dsec_spec.specs.Names.{rrsig_label_count, wire_octets};
ghost use Rattle.dsec_spec.specs.Numbers.{RRSIG};
ghost use Rattle.dsec_spec.specs.Records.{fixed_octets};
ghost use Rattle.dsec_wire.specs.Views.{rrsig_view};
ghost use Rattle.dsec_link.specs.Sets.{canonical_record};
ghost use Rattle.dsec_link.specs.Signing.{head_octets};
ghost use Rattle.dsec_sorted.specs.SetViews.{members_left};
ghost use Rattle.dsec_rrsig.specs.Messages.{data_octets, front_octets, piece};

use crate::config::GenerateRrsigConfig;
use dsec_link::{push_fixed, push_head};
use dsec_name::{Name, NoMemory, Octets};
use dsec_number::{Rtype, SecurityAlgorithm};
use dsec_sorted::RrsetIter;
use dsec_wire::{Data, Record, Rrsig};
use std::alloc::Global;

/// The octets of an RRSIG record's data before the signer's name (RFC 4034 3.1).
const FIXED: usize = 18;

/// What the signature of a signer says of the set of a record; its octets are left out.
pub(crate) fn rrsig_over<'a>(
    signer: &'a Name,
    algorithm: SecurityAlgorithm,
    tag: u16,
    first: &Record,
    config: &GenerateRrsigConfig,
) -> Rrsig<'a>
    ensures { rrsig_view result ≡ record { covered = first.now.rtype; algorithm = algorithm; labels = rrsig_label_count first.now.owner; original_ttl = first.now.ttl; expiration = config.now.expiration; inception = config.now.inception; tag = tag; signer = signer.now; signature = [] } }
{
    Rrsig {
        type_covered: first.rtype(),
        algorithm,
        labels: first.owner().rrsig_label_count(),
        original_ttl: first.ttl(),
        expiration: config.expiration,
        inception: config.inception,
        key_tag: tag,
        signer_name: signer.as_name_ref(),
        signature: &[],
    }
}

/// Adds what is signed of a set whose records come in the order of their canonical data; the first of the set may come later.
pub(crate) fn push_message(
    message: &mut Vec<u8>,
    rrsig: &Rrsig<'_>,
    first: &Record,
    records: RrsetIter<'_>,
) -> Result<(), NoMemory>
    ensures { OnOk result (message.new.items ≡ message.old.items ++ head_octets (rrsig_view rrsig.now) ++ flat_map (piece first.now) (members_left records.entry)) }
{
    push_head(message, rrsig)?;
    let mut rest = records;
    while let Some(one) = rest.next() {
        push_record(message, first, one)?;
    }
    Ok(())
}

/// Adds a record of the set of the first.
pub(crate) fn push_record(
    message: &mut Vec<u8>,
    first: &Record,
    one: &Record,
) -> Result<(), NoMemory>
    ensures { OnOk result (message.new.items ≡ message.old.items ++ piece first.now one.now) }
{
    push_front(message, first)?;
    push_data(message, one)
}

/// Adds what stands before the data of each record of the set of the first.
fn push_front(message: &mut Vec<u8>, first: &Record) -> Result<(), NoMemory>
    ensures { OnOk result (message.new.items ≡ message.old.items ++ front_octets first.now) }
{
    first.owner().compose_canonical(message)?;
    message.extend_from_slice(&first.rtype().to_int().to_be_bytes())?;
    message.extend_from_slice(&first.class().to_int().to_be_bytes())?;
    message.extend_from_slice(&first.ttl().as_secs().to_be_bytes())?;
    Ok(())
}

/// Adds a record's data with their length.
fn push_data(message: &mut Vec<u8>, one: &Record) -> Result<(), NoMemory>
    ensures { OnOk result (message.new.items ≡ message.old.items ++ data_octets one.now) }
{
    message.extend_from_slice(&data_length(one).to_be_bytes())?;
    one.rdata().compose_canonical(message)?;
    Ok(())
}

/// How many octets a record's data have as they are signed: as many as they have.
fn data_length(one: &Record) -> u16
    ensures { result ≡ length (canonical_record one.now) }
{
    (one.rdata().octets().len() % 65536) as u16
}

/// The RRSIG record over the set of a record.
pub(crate) fn rrsig_record(
    alloc: Global,
    first: &Record,
    signer: &Name,
    rrsig: &Rrsig<'_>,
    signature: &[u8],
) -> Result<Record, NoMemory>
    requires { length signature.now ≤ 60000 }
    ensures { IfOk result (λ r. r ≡ record { owner = first.now.owner; class = first.now.class; rtype = RRSIG; ttl = first.now.ttl; rdata = fixed_octets (rrsig_view rrsig.now) ++ wire_octets signer.now ++ signature.now }) }
{
    let rdata = rrsig_data(alloc, signer, rrsig, signature)?;
    let owner = copied(first.owner())?;
    Ok(Record::new(owner, first.class(), first.ttl(), rdata))
}

/// The data of an RRSIG record.
fn rrsig_data(
    alloc: Global,
    signer: &Name,
    rrsig: &Rrsig<'_>,
    signature: &[u8],
) -> Result<Data, NoMemory>
    requires { length signature.now ≤ 60000 }
    ensures { IfOk result (λ it. it ≡ record { rtype = RRSIG; octets = fixed_octets (rrsig_view rrsig.now) ++ wire_octets signer.now ++ signature.now }) }
{
    let mut octets = Vec::with_capacity(alloc, FIXED + signer.wire_len() + signature.len())?;
    push_fixed(&mut octets, rrsig)?;
    signer.compose(&mut octets)?;
    octets.extend_from_slice(signature)?;
    Ok(Data::new(Rtype::RRSIG, Octets::new(octets)))
}

/// A copy of a name.
fn copied(name: &Name) -> Result<Name, NoMemory>
    ensures { IfOk result (λ copy. copy ≡ name.now) }
{
    Ok(name.clone()?)
}
