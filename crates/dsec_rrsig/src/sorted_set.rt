//! The signature of a set in canonical order (RFC 4034 3, RFC 4035 2.2).

ghost use Rattle.std.specs.Prelude.{◌≡◌, ◌≤◌, ◌++◌, [], IfOk, IsErrOf, OnOk};
ghost use Rattle.std.specs.List.{flat_map};
ghost use Rattle.dsec_spec.specs.CanonicalRecords.{IsCanonical};
ghost use Rattle.dsec_spec.specs.KeyTag.{key_tag};
ghost use Rattle.dsec_spec.specs.Outside.{Rose};
ghost use Rattle.dsec_spec.specs.Signatures.{IsSignature, rrsig_for};
ghost use Rattle.dsec_link.specs.Signing.{head_octets};
ghost use Rattle.dsec_sorted.specs.SetViews.{members_left, members_of};
ghost use Rattle.dsec_rrsig.specs.Asks.{AsksSigning, asked_of};
ghost use Rattle.dsec_rrsig.specs.Failures.{CountsSigning};
ghost use Rattle.dsec_rrsig.specs.Made.{IsRrsigOver, message_for};
ghost use Rattle.dsec_rrsig.specs.Messages.{piece};
ghost use Rattle.dsec_rrsig.specs.Signers.{period_of, signer_of};

use crate::config::GenerateRrsigConfig;
use crate::error::SignError;
use crate::message::{push_message, rrsig_over, rrsig_record};
use crate::sign_raw::SignRaw;
use crate::signing_key::SigningKey;
use dsec_name::NoMemory;
use dsec_sorted::{Rrset, RrsetIter};
use dsec_wire::Record;
use std::alloc::Global;

/// The tag of a key (RFC 4034 B). It takes a pass over the key.
pub fn tag_of<I: SignRaw>(key: &SigningKey<I>) -> Result<u16, NoMemory>
    ensures { IfOk result (λ tag. tag ≡ key_tag (I.key key.now.inner)) }
{
    match key.inner.dnskey() {
        Ok(dnskey) => Ok(dnskey.key_tag()),
        Err(error) => Err(error),
    }
}

/// The RRSIG record over a set in canonical order by a key whose tag is at hand, as `sign_sorted_rrset_in` makes it; neither the
/// type nor the period is tested. What `message` holds doesn't matter.
pub fn sign_set<I: SignRaw>(
    alloc: Global,
    key: &mut SigningKey<I>,
    tag: u16,
    set: &Rrset<'_>,
    config: &GenerateRrsigConfig,
    message: &mut Vec<u8>,
) -> Result<Record, SignError>
    requires tag { tag ≡ key_tag (I.key key.old.inner) }
    requires canonical { IsCanonical (members_of set.now) }
    ensures signed { IfOk result (λ r. IsSignature I.signs (period_of config.now) (members_of set.now, signer_of I.key key.old) r) }
    ensures kept { signer_of I.key key.new ≡ signer_of I.key key.old }
    ensures flags { key.new.flags ≡ key.old.flags }
    ensures later { I.faults key.old.inner ≤ I.faults key.new.inner }
    ensures failed { IsErrOf result SignError.Failed → Rose (I.faults key.old.inner) (I.faults key.new.inner) }
    ensures counts { CountsSigning (I.faults key.old.inner) (I.faults key.new.inner) result }
    ensures asks { AsksSigning (message_for (signer_of I.key key.old) (period_of config.now) (members_of set.now)) (asked_of I.key I.asked I.given key.old) (asked_of I.key I.asked I.given key.new) result }
{
    fill_sorted(message, key, tag, set, config)?;
    let made = sign_message(alloc, key, tag, set.first(), config, message)?;
    Ok(made)
}

/// What is signed of a set in canonical order, in place of what `message` holds.
fn fill_sorted<I: SignRaw>(
    message: &mut Vec<u8>,
    key: &SigningKey<I>,
    tag: u16,
    set: &Rrset<'_>,
    config: &GenerateRrsigConfig,
) -> Result<(), NoMemory>
    requires tag { tag ≡ key_tag (I.key key.now.inner) }
    requires canonical { IsCanonical (members_of set.now) }
    ensures { OnOk result (message.new.items ≡ message_for (signer_of I.key key.now) (period_of config.now) (members_of set.now)) }
{
    message.clear();
    fill(message, key, tag, set.first(), set.iter(), config)?;
    Ok(())
}

/// Adds what is signed of the set of the first, whose records come in the order of their canonical data.
fn fill<I: SignRaw>(
    message: &mut Vec<u8>,
    key: &SigningKey<I>,
    tag: u16,
    first: &Record,
    records: RrsetIter<'_>,
    config: &GenerateRrsigConfig,
) -> Result<(), NoMemory>
    requires { tag ≡ key_tag (I.key key.now.inner) }
    ensures { OnOk result (message.new.items ≡ message.old.items ++ head_octets (rrsig_for (signer_of I.key key.now) (period_of config.now) first.now []) ++ flat_map (piece first.now) (members_left records.entry)) }
{
    let rrsig = rrsig_over(&key.owner, key.inner.algorithm(), tag, first, config);
    push_message(message, &rrsig, first, records)?;
    Ok(())
}

/// The RRSIG record with a signature over a message, of the set of the first.
pub(crate) fn sign_message<I: SignRaw>(
    alloc: Global,
    key: &mut SigningKey<I>,
    tag: u16,
    first: &Record,
    config: &GenerateRrsigConfig,
    message: &[u8],
) -> Result<Record, SignError>
    requires { tag ≡ key_tag (I.key key.old.inner) }
    ensures made { IfOk result (λ r. IsRrsigOver I.signs (signer_of I.key key.old) (period_of config.now) first.now message.now r) }
    ensures kept { signer_of I.key key.new ≡ signer_of I.key key.old }
    ensures flags { key.new.flags ≡ key.old.flags }
    ensures later { I.faults key.old.inner ≤ I.faults key.new.inner }
    ensures failed { IsErrOf result SignError.Failed → Rose (I.faults key.old.inner) (I.faults key.new.inner) }
    ensures counts { CountsSigning (I.faults key.old.inner) (I.faults key.new.inner) result }
    ensures asks { AsksSigning message.now (asked_of I.key I.asked I.given key.old) (asked_of I.key I.asked I.given key.new) result }
{
    let signature = key.inner.sign_raw(alloc, message)?;
    let rrsig = rrsig_over(&key.owner, key.inner.algorithm(), tag, first, config);
    let made = rrsig_record(alloc, first, &key.owner, &rrsig, &signature)?;
    Ok(made)
}
