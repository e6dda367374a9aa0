//! What is tested before sets are signed (RFC 2181 5.2, RFC 4034 3.1.5).

ghost use Rattle.std.specs.Prelude.{◌≡◌, ◌≢◌, ◌↔◌, ◌==◌, [], All, IfErr, IsTrue, OnOk, map};
ghost use Rattle.std.specs.List.{list_any};
ghost use Rattle.std.proofs.Math.Bool.{not};
ghost use Rattle.dsec_sorted.specs.Sets.{differ_in_ttl};
ghost use Rattle.dsec_rrsig.specs.Signers.{period_of, signer_of};
ghost use Rattle.dsec_sign.specs.Places.{IsFound, set_at};
ghost use Rattle.dsec_sign.specs.Refusals.{AreAllowed, IsSetsRefusal};

use crate::zone_sets::SetAt;
use dsec_number::Rtype;
use dsec_rrsig::{GenerateRrsigConfig, SignRaw, SigningError, SigningKey};
use dsec_wire::Record;

/// Tests whether each set is of one TTL, and then the period, where there is a set and a key.
pub(crate) fn allow<I: SignRaw>(
    records: &[Record],
    sets: &[SetAt],
    keys: &[SigningKey<I>],
    config: &GenerateRrsigConfig,
) -> Result<(), SigningError>
    requires { All (IsFound records.now) sets.now }
    ensures allowed { OnOk result (AreAllowed (map (set_at records.now) sets.now) (map (signer_of I.key) keys.now) (period_of config.now)) }
    ensures why { IfErr result (λ e. IsSetsRefusal (map (set_at records.now) sets.now) (map (signer_of I.key) keys.now) (period_of config.now) ⊥ e) }
{
    if have_several_ttls(records, sets) {
        return Err(SigningError::MultipleTtlValues);
    }
    if is_asked(sets, keys) && !config.is_valid() {
        return Err(SigningError::InvalidSignatureValidityPeriod(
            config.inception,
            config.expiration,
        ));
    }
    Ok(())
}

/// Whether a signature is asked for.
fn is_asked<I>(sets: &[SetAt], keys: &[SigningKey<I>]) -> bool
    ensures { IsTrue result ↔ (sets.now ≢ []) × (keys.now ≢ []) }
{
    !sets.is_empty() && !keys.is_empty()
}

/// Whether one of the sets differs in TTL.
fn have_several_ttls(records: &[Record], sets: &[SetAt]) -> bool
    requires { All (IsFound records.now) sets.now }
    ensures { result ≡ list_any differ_in_ttl (map (set_at records.now) sets.now) }
{
    for set in sets {
        if has_several_ttls(records, *set) {
            return true;
        }
    }
    false
}

/// Whether a set differs in TTL.
fn has_several_ttls(records: &[Record], set: SetAt) -> bool
    requires { IsFound records.now set }
    ensures { result ≡ differ_in_ttl (set_at records.now set) }
{
    differs(&records[set.start..set.start + set.size])
}

/// Whether records of one set differ in TTL; those of signatures may.
fn differs(set: &[Record]) -> bool
    ensures { result ≡ differ_in_ttl set.now }
{
    match set.split_first() {
        Some((first, others)) => first.rtype() != Rtype::RRSIG && has_other_ttl(first, others),
        None => false,
    }
}

/// Whether one of the records has another TTL than the first.
fn has_other_ttl(first: &Record, others: &[Record]) -> bool
    ensures { result ≡ list_any (λ r. not (r.ttl == first.now.ttl)) others.now }
{
    others.iter().any(|one| is_other_ttl(first, one))
}

/// Whether a record has another TTL than the first.
fn is_other_ttl(first: &Record, one: &Record) -> bool
    ensures { result ≡ not (one.now.ttl == first.now.ttl) }
{
    one.ttl() != first.ttl()
}
