//! The signature of a set in any order (RFC 4034 6.3).

ghost use Rattle.std.specs.Prelude.{◌≡◌, ◌≤◌, ◌++◌, [], IfOk, IsErrOf, IsPermutation, IsSorted, OnOk, map};
ghost use Rattle.std.specs.Cmp.Lexicographic.{slice_cmp};
ghost use Rattle.std.specs.List.{flat_map};
ghost use Rattle.std.specs.Ordering.{nat_cmp};
ghost use Rattle.dsec_spec.specs.KeyTag.{key_tag};
ghost use Rattle.dsec_spec.specs.Outside.{Rose};
ghost use Rattle.dsec_spec.specs.Signatures.{IsSignature, rrsig_for};
ghost use Rattle.dsec_link.specs.Signing.{head_octets};
ghost use Rattle.dsec_sorted.specs.SetViews.{members_of};
ghost use Rattle.dsec_rrsig.specs.Asks.{AsksSigning, asked_of};
ghost use Rattle.dsec_rrsig.specs.Failures.{CountsSigning};
ghost use Rattle.dsec_rrsig.specs.Lent.{lent};
ghost use Rattle.dsec_rrsig.specs.Made.{message_for};
ghost use Rattle.dsec_rrsig.specs.Messages.{AreInOrder, piece};
ghost use Rattle.dsec_rrsig.specs.Signers.{period_of, signer_of};

use crate::config::GenerateRrsigConfig;
use crate::error::SignError;
use crate::message::{push_record, rrsig_over};
use crate::sign_raw::SignRaw;
use crate::signing_key::SigningKey;
use crate::sorted_set::{sign_message, tag_of};
use dsec_link::push_head;
use dsec_name::NoMemory;
use dsec_sorted::Rrset;
use dsec_wire::Record;
use std::alloc::Global;

/// The RRSIG record over a set; neither the type nor the period is tested.
pub(crate) fn sign_unsorted<I: SignRaw>(
    alloc: Global,
    key: &mut SigningKey<I>,
    set: &Rrset<'_>,
    config: &GenerateRrsigConfig,
) -> Result<Record, SignError>
    ensures signed { IfOk result (λ r. IsSignature I.signs (period_of config.now) (members_of set.now, signer_of I.key key.old) r) }
    ensures kept { signer_of I.key key.new ≡ signer_of I.key key.old }
    ensures flags { key.new.flags ≡ key.old.flags }
    ensures later { I.faults key.old.inner ≤ I.faults key.new.inner }
    ensures failed { IsErrOf result SignError.Failed → Rose (I.faults key.old.inner) (I.faults key.new.inner) }
    ensures counts { CountsSigning (I.faults key.old.inner) (I.faults key.new.inner) result }
    ensures asks { AsksSigning (message_for (signer_of I.key key.old) (period_of config.now) (members_of set.now)) (asked_of I.key I.asked I.given key.old) (asked_of I.key I.asked I.given key.new) result }
{
    let tag = tag_of(key)?;
    let message = message_of(alloc, key, tag, set, config)?;
    let made = sign_message(alloc, key, tag, set.first(), config, &message)?;
    Ok(made)
}

/// What is signed of a set.
fn message_of<I: SignRaw>(
    alloc: Global,
    key: &SigningKey<I>,
    tag: u16,
    set: &Rrset<'_>,
    config: &GenerateRrsigConfig,
) -> Result<Vec<u8>, NoMemory>
    requires { tag ≡ key_tag (I.key key.now.inner) }
    ensures { IfOk result (λ message. message.items ≡ message_for (signer_of I.key key.now) (period_of config.now) (members_of set.now)) }
{
    let records = in_order(alloc, set)?;
    let mut message = Vec::new(alloc);
    fill(&mut message, key, tag, set.first(), &records, config)?;
    Ok(message)
}

/// Adds what is signed of the set of the first, whose records come in the order of their canonical data.
fn fill<I: SignRaw>(
    message: &mut Vec<u8>,
    key: &SigningKey<I>,
    tag: u16,
    first: &Record,
    records: &[&Record],
    config: &GenerateRrsigConfig,
) -> Result<(), NoMemory>
    requires { tag ≡ key_tag (I.key key.now.inner) }
    ensures { OnOk result (message.new.items ≡ message.old.items ++ head_octets (rrsig_for (signer_of I.key key.now) (period_of config.now) first.now []) ++ flat_map (piece first.now) (lent records.now)) }
{
    let rrsig = rrsig_over(&key.owner, key.inner.algorithm(), tag, first, config);
    push_head(message, &rrsig)?;
    push_records(message, first, records)?;
    Ok(())
}

/// Adds records of the set of the first.
fn push_records(message: &mut Vec<u8>, first: &Record, records: &[&Record]) -> Result<(), NoMemory>
    ensures { OnOk result (message.new.items ≡ message.old.items ++ flat_map (piece first.now) (lent records.now)) }
{
    for one in records {
        push_record(message, first, one)?;
    }
    Ok(())
}

/// The records of a set in the order of their canonical data. None is copied.
fn in_order<'a>(alloc: Global, set: &Rrset<'a>) -> Result<Vec<&'a Record>, NoMemory>
    ensures { IfOk result (λ records. AreInOrder (members_of set.now) (lent records.items)) }
{
    let mut records = lend(alloc, set)?;
    records.sort_unstable_by(|a, b| a.rdata().canonical_cmp(b.rdata()));
    Ok(records)
}

/// The records of a set.
fn lend<'a>(alloc: Global, set: &Rrset<'a>) -> Result<Vec<&'a Record>, NoMemory>
    ensures { IfOk result (λ records. lent records.items ≡ members_of set.now) }
{
    let mut records = Vec::new(alloc);
    let mut rest = set.iter();
    while let Some(one) = rest.next() {
        records.push(one)?;
    }
    Ok(records)
}
