//! The signature of a set (RFC 4034 3, RFC 4035 2.2).

ghost use Rattle.std.specs.Prelude.{◌≡◌, ◌≢◌, ◌≤◌, ◌↔◌, ◌++◌, IfErr, IfOk, IsErrOf, OnErr, OnOk, map};
ghost use Rattle.std.specs.List.{flat_map};
ghost use Rattle.dsec_spec.specs.CanonicalRecords.{IsCanonical};
ghost use Rattle.dsec_spec.specs.KeyTag.{key_tag};
ghost use Rattle.dsec_spec.specs.Numbers.{RRSIG};
ghost use Rattle.dsec_spec.specs.Outside.{Rose};
ghost use Rattle.dsec_spec.specs.Signatures.{IsSignature, IsValidPeriod};
ghost use Rattle.dsec_sorted.specs.SetViews.{members_of};
ghost use Rattle.dsec_rrsig.specs.declared.error.SigningError.TheVariants as signing;
ghost use Rattle.dsec_rrsig.specs.Asks.{AsksRefusal, asked_of};
ghost use Rattle.dsec_rrsig.specs.Failures.{CountsRefusal};
ghost use Rattle.dsec_rrsig.specs.Made.{IsSetRefusal, message_for};
ghost use Rattle.dsec_rrsig.specs.Messages.{first_type};
ghost use Rattle.dsec_rrsig.specs.Signers.{period_of, signer_of};

use crate::config::GenerateRrsigConfig;
use crate::error::SigningError;
use crate::sign_raw::SignRaw;
use crate::signing_key::SigningKey;
use crate::sorted_set::{sign_set, tag_of};
use crate::unsorted_set::sign_unsorted;
use dsec_number::{Rtype, Timestamp};
use dsec_sorted::Rrset;
use dsec_wire::Record;
use std::alloc::Global;

/// The RRSIG record over a set by a key. Sets of signatures aren't signed; that is tested before the period.
pub fn sign_rrset<I: SignRaw>(
    alloc: Global,
    key: &mut SigningKey<I>,
    set: &Rrset<'_>,
    inception: Timestamp,
    expiration: Timestamp,
) -> Result<Record, SigningError>
    ensures signed { IfOk result (λ r. IsSignature I.signs (record { inception = inception; expiration = expiration }) (members_of set.now, signer_of I.key key.old) r) }
    ensures signatures { IsErrOf result SigningError.RrsigRrsMustNotBeSigned ↔ (first_type (members_of set.now) ≡ RRSIG) }
    ensures period { IsErrOf result (signing.InvalidSignatureValidityPeriod inception expiration)
        ↔ (first_type (members_of set.now) ≢ RRSIG) × (IsValidPeriod (record { inception = inception; expiration = expiration }) → ⊥) }
    ensures why { IfErr result (λ e. IsSetRefusal (first_type (members_of set.now)) (record { inception = inception; expiration = expiration })
        (Rose (I.faults key.old.inner) (I.faults key.new.inner)) e) }
    ensures kept { signer_of I.key key.new ≡ signer_of I.key key.old }
    ensures flags { key.new.flags ≡ key.old.flags }
    ensures later { I.faults key.old.inner ≤ I.faults key.new.inner }
    ensures counts { CountsRefusal (I.faults key.old.inner) (I.faults key.new.inner) result }
    ensures asks { AsksRefusal (message_for (signer_of I.key key.old) (record { inception = inception; expiration = expiration }) (members_of set.now)) (asked_of I.key I.asked I.given key.old) (asked_of I.key I.asked I.given key.new) result }
{
    let config = GenerateRrsigConfig::new(inception, expiration);
    sign_allowed(alloc, key, set, &config)
}

/// The same of a set in canonical order, without duplicates. What `scratch` holds doesn't matter.
pub fn sign_sorted_rrset_in<I: SignRaw>(
    alloc: Global,
    key: &mut SigningKey<I>,
    set: &Rrset<'_>,
    inception: Timestamp,
    expiration: Timestamp,
    scratch: &mut Vec<u8>,
) -> Result<Record, SigningError>
    requires { IsCanonical (members_of set.now) }
    ensures signed { IfOk result (λ r. IsSignature I.signs (record { inception = inception; expiration = expiration }) (members_of set.now, signer_of I.key key.old) r) }
    ensures signatures { IsErrOf result SigningError.RrsigRrsMustNotBeSigned ↔ (first_type (members_of set.now) ≡ RRSIG) }
    ensures period { IsErrOf result (signing.InvalidSignatureValidityPeriod inception expiration)
        ↔ (first_type (members_of set.now) ≢ RRSIG) × (IsValidPeriod (record { inception = inception; expiration = expiration }) → ⊥) }
    ensures why { IfErr result (λ e. IsSetRefusal (first_type (members_of set.now)) (record { inception = inception; expiration = expiration })
        (Rose (I.faults key.old.inner) (I.faults key.new.inner)) e) }
    ensures kept { signer_of I.key key.new ≡ signer_of I.key key.old }
    ensures flags { key.new.flags ≡ key.old.flags }
    ensures later { I.faults key.old.inner ≤ I.faults key.new.inner }
    ensures counts { CountsRefusal (I.faults key.old.inner) (I.faults key.new.inner) result }
    ensures asks { AsksRefusal (message_for (signer_of I.key key.old) (record { inception = inception; expiration = expiration }) (members_of set.now)) (asked_of I.key I.asked I.given key.old) (asked_of I.key I.asked I.given key.new) result }
{
    let config = GenerateRrsigConfig::new(inception, expiration);
    sign_sorted_allowed(alloc, key, set, &config, scratch)
}

/// The RRSIG record over a set, which is tested first.
fn sign_allowed<I: SignRaw>(
    alloc: Global,
    key: &mut SigningKey<I>,
    set: &Rrset<'_>,
    config: &GenerateRrsigConfig,
) -> Result<Record, SigningError>
    ensures signed { IfOk result (λ r. IsSignature I.signs (period_of config.now) (members_of set.now, signer_of I.key key.old) r) }
    ensures allowed { OnOk result ((first_type (members_of set.now) ≢ RRSIG) × IsValidPeriod (period_of config.now)) }
    ensures why { IfErr result (λ e. IsSetRefusal (first_type (members_of set.now)) (period_of config.now) (Rose (I.faults key.old.inner) (I.faults key.new.inner)) e) }
    ensures kept { signer_of I.key key.new ≡ signer_of I.key key.old }
    ensures flags { key.new.flags ≡ key.old.flags }
    ensures later { I.faults key.old.inner ≤ I.faults key.new.inner }
    ensures counts { CountsRefusal (I.faults key.old.inner) (I.faults key.new.inner) result }
    ensures asks { AsksRefusal (message_for (signer_of I.key key.old) (period_of config.now) (members_of set.now)) (asked_of I.key I.asked I.given key.old) (asked_of I.key I.asked I.given key.new) result }
{
    allow(set.first().rtype(), config)?;
    let made = sign_unsorted(alloc, key, set, config)?;
    Ok(made)
}

/// The same of a set in canonical order.
fn sign_sorted_allowed<I: SignRaw>(
    alloc: Global,
    key: &mut SigningKey<I>,
    set: &Rrset<'_>,
    config: &GenerateRrsigConfig,
    scratch: &mut Vec<u8>,
) -> Result<Record, SigningError>
    requires { IsCanonical (members_of set.now) }
    ensures signed { IfOk result (λ r. IsSignature I.signs (period_of config.now) (members_of set.now, signer_of I.key key.old) r) }
    ensures allowed { OnOk result ((first_type (members_of set.now) ≢ RRSIG) × IsValidPeriod (period_of config.now)) }
    ensures why { IfErr result (λ e. IsSetRefusal (first_type (members_of set.now)) (period_of config.now) (Rose (I.faults key.old.inner) (I.faults key.new.inner)) e) }
    ensures kept { signer_of I.key key.new ≡ signer_of I.key key.old }
    ensures flags { key.new.flags ≡ key.old.flags }
    ensures later { I.faults key.old.inner ≤ I.faults key.new.inner }
    ensures counts { CountsRefusal (I.faults key.old.inner) (I.faults key.new.inner) result }
    ensures asks { AsksRefusal (message_for (signer_of I.key key.old) (period_of config.now) (members_of set.now)) (asked_of I.key I.asked I.given key.old) (asked_of I.key I.asked I.given key.new) result }
{
    allow(set.first().rtype(), config)?;
    let tag = tag_of(key)?;
    let made = sign_set(alloc, key, tag, set, config, scratch)?;
    Ok(made)
}

/// Tests whether a set of the type is signed, and for the period.
fn allow(rtype: Rtype, config: &GenerateRrsigConfig) -> Result<(), SigningError>
    ensures allowed { OnOk result ((rtype ≢ RRSIG) × IsValidPeriod (period_of config.now)) }
    ensures why { IfErr result (λ e. IsSetRefusal rtype (period_of config.now) ⊥ e) }
{
    if rtype == Rtype::RRSIG {
        return Err(SigningError::RrsigRrsMustNotBeSigned);
    }
    if !config.is_valid() {
        return Err(SigningError::InvalidSignatureValidityPeriod(
            config.inception,
            config.expiration,
        ));
    }
    Ok(())
}
