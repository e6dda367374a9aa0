//! The signatures of sets by keys (RFC 4035 2.2).

ghost use Rattle.std.specs.Prelude.{◌≡◌, ◌++◌, ◌∷◌, [], All, IfOk, IsErrOf, OnErr, OnOk, length, map, take};
ghost use Rattle.dsec_spec.specs.CanonicalRecords.{IsCanonical};
ghost use Rattle.dsec_spec.specs.Signatures.{AreSignatures};
ghost use Rattle.dsec_sorted.specs.SetViews.{members_of};
ghost use Rattle.dsec_rrsig.specs.Signers.{period_of, signer_of};
ghost use Rattle.dsec_sign.specs.Places.{IsSignable, set_at};
ghost use Rattle.dsec_sign.specs.SignerAsks.{AskSignings, all_asked};
ghost use Rattle.dsec_sign.specs.SignerFaults.{AddsOfSet, AddsSignatures, AreSameSigners, CountSignings, SomeRose, tags_of as signer_tags};

use crate::zone_sets::SetAt;
use dsec_name::NoMemory;
use dsec_rrsig::{GenerateRrsigConfig, SignError, SignRaw, SigningKey, sign_set, tag_of};
use dsec_sorted::Rrset;
use dsec_wire::Record;
use std::alloc::Global;

/// The signatures of each set by each key, in order.
pub(crate) fn sign_sets<I: SignRaw>(
    alloc: Global,
    records: &[Record],
    sets: &[SetAt],
    keys: &mut [SigningKey<I>],
    config: &GenerateRrsigConfig,
) -> Result<Vec<Record>, SignError>
    requires { All (IsSignable records.now) sets.now }
    ensures signed { IfOk result (λ all. AreSignatures I.signs (period_of config.now) (map (set_at records.now) sets.now) (map (signer_of I.key) keys.old) all.items) }
    ensures same { AreSameSigners I.key I.faults keys.old keys.new }
    ensures failed { IsErrOf result SignError.Failed → SomeRose I.faults keys.old keys.new }
    ensures counts { CountSignings I.faults keys.old keys.new result }
    ensures asks { AskSignings (period_of config.now) (map (set_at records.now) sets.now) (all_asked I.key I.asked I.given keys.old) (all_asked I.key I.asked I.given keys.new) result }
{
    let tags = tags_of(alloc, keys)?;
    let mut all = Vec::with_capacity(alloc, sets.len().saturating_mul(keys.len()))?;
    sign_each(alloc, records, sets, keys, &tags, config, &mut all)?;
    Ok(all)
}

/// Adds the signatures of each set by each key; on a refusal there may be some of them.
fn sign_each<I: SignRaw>(
    alloc: Global,
    records: &[Record],
    sets: &[SetAt],
    keys: &mut [SigningKey<I>],
    tags: &[u16],
    config: &GenerateRrsigConfig,
    out: &mut Vec<Record>,
) -> Result<(), SignError>
    requires sets { All (IsSignable records.now) sets.now }
    requires tags { tags.now ≡ signer_tags (map (signer_of I.key) keys.old) }
    ensures signed { OnOk result (AddsSignatures I.signs (period_of config.now) (map (set_at records.now) sets.now) (map (signer_of I.key) keys.old) out.old.items out.new.items) }
    ensures same { AreSameSigners I.key I.faults keys.old keys.new }
    ensures failed { IsErrOf result SignError.Failed → SomeRose I.faults keys.old keys.new }
    ensures counts { CountSignings I.faults keys.old keys.new result }
    ensures asks { AskSignings (period_of config.now) (map (set_at records.now) sets.now) (all_asked I.key I.asked I.given keys.old) (all_asked I.key I.asked I.given keys.new) result }
{
    let mut message = Vec::new(alloc);
    for set in sets {
        let members = members(records, *set);
        sign_one(alloc, &members, keys, tags, config, &mut message, out)?;
    }
    Ok(())
}

/// Adds the signatures of each set by each key behind the records; on a refusal there may be some of them.
pub(crate) fn sign_behind<I: SignRaw>(
    alloc: Global,
    records: &mut Vec<Record>,
    sets: &[SetAt],
    keys: &mut [SigningKey<I>],
    config: &GenerateRrsigConfig,
) -> Result<(), SignError>
    requires { All (IsSignable records.old.items) sets.now }
    ensures signed { OnOk result (AddsSignatures I.signs (period_of config.now) (map (set_at records.old.items) sets.now) (map (signer_of I.key) keys.old) records.old.items records.new.items) }
    ensures front { take (length records.old.items) records.new.items ≡ records.old.items }
    ensures same { AreSameSigners I.key I.faults keys.old keys.new }
    ensures failed { IsErrOf result SignError.Failed → SomeRose I.faults keys.old keys.new }
    ensures counts { CountSignings I.faults keys.old keys.new result }
    ensures asks { AskSignings (period_of config.now) (map (set_at records.old.items) sets.now) (all_asked I.key I.asked I.given keys.old) (all_asked I.key I.asked I.given keys.new) result }
{
    let tags = tags_of(alloc, keys)?;
    records.reserve_exact(sets.len().saturating_mul(keys.len()))?;
    sign_each_behind(alloc, records, sets, keys, &tags, config)?;
    Ok(())
}

/// The same by keys whose tags are at hand.
fn sign_each_behind<I: SignRaw>(
    alloc: Global,
    records: &mut Vec<Record>,
    sets: &[SetAt],
    keys: &mut [SigningKey<I>],
    tags: &[u16],
    config: &GenerateRrsigConfig,
) -> Result<(), SignError>
    requires sets { All (IsSignable records.old.items) sets.now }
    requires tags { tags.now ≡ signer_tags (map (signer_of I.key) keys.old) }
    ensures signed { OnOk result (AddsSignatures I.signs (period_of config.now) (map (set_at records.old.items) sets.now) (map (signer_of I.key) keys.old) records.old.items records.new.items) }
    ensures front { take (length records.old.items) records.new.items ≡ records.old.items }
    ensures same { AreSameSigners I.key I.faults keys.old keys.new }
    ensures failed { IsErrOf result SignError.Failed → SomeRose I.faults keys.old keys.new }
    ensures counts { CountSignings I.faults keys.old keys.new result }
    ensures asks { AskSignings (period_of config.now) (map (set_at records.old.items) sets.now) (all_asked I.key I.asked I.given keys.old) (all_asked I.key I.asked I.given keys.new) result }
{
    let mut message = Vec::new(alloc);
    let mut made = Vec::new(alloc);
    for set in sets {
        sign_one_behind(
            alloc,
            records,
            *set,
            keys,
            tags,
            config,
            &mut message,
            &mut made,
        )?;
    }
    Ok(())
}

/// Adds the signatures of a set by each key behind the records, of which it is one; a refusal leaves these as they are.
fn sign_one_behind<I: SignRaw>(
    alloc: Global,
    records: &mut Vec<Record>,
    set: SetAt,
    keys: &mut [SigningKey<I>],
    tags: &[u16],
    config: &GenerateRrsigConfig,
    message: &mut Vec<u8>,
    made: &mut Vec<Record>,
) -> Result<(), SignError>
    requires set { IsSignable records.old.items set }
    requires tags { tags.now ≡ signer_tags (map (signer_of I.key) keys.old) }
    requires empty { made.old.items ≡ [] }
    ensures signed { OnOk result (AddsOfSet I.signs (period_of config.now) (set_at records.old.items set) (map (signer_of I.key) keys.old) records.old.items records.new.items) }
    ensures empty { OnOk result (made.new.items ≡ []) }
    ensures err { OnErr result (records.new.items ≡ records.old.items) }
    ensures same { AreSameSigners I.key I.faults keys.old keys.new }
    ensures failed { IsErrOf result SignError.Failed → SomeRose I.faults keys.old keys.new }
    ensures counts { CountSignings I.faults keys.old keys.new result }
    ensures asks { AskSignings (period_of config.now) (set_at records.old.items set ∷ []) (all_asked I.key I.asked I.given keys.old) (all_asked I.key I.asked I.given keys.new) result }
{
    let members = members(records, set);
    sign_one(alloc, &members, keys, tags, config, message, made)?;
    records.append(made)?;
    Ok(())
}

/// The records of a set.
fn members<'a>(records: &'a [Record], set: SetAt) -> Rrset<'a>
    requires { IsSignable records.now set }
    ensures { members_of result ≡ set_at records.now set }
{
    Rrset::from_checked(&records[set.start..set.start + set.size])
}

/// Adds the signatures of a set by each key, in order.
fn sign_one<I: SignRaw>(
    alloc: Global,
    set: &Rrset<'_>,
    keys: &mut [SigningKey<I>],
    tags: &[u16],
    config: &GenerateRrsigConfig,
    message: &mut Vec<u8>,
    out: &mut Vec<Record>,
) -> Result<(), SignError>
    requires canonical { IsCanonical (members_of set.now) }
    requires tags { tags.now ≡ signer_tags (map (signer_of I.key) keys.old) }
    ensures signed { OnOk result (AddsOfSet I.signs (period_of config.now) (members_of set.now) (map (signer_of I.key) keys.old) out.old.items out.new.items) }
    ensures same { AreSameSigners I.key I.faults keys.old keys.new }
    ensures failed { IsErrOf result SignError.Failed → SomeRose I.faults keys.old keys.new }
    ensures counts { CountSignings I.faults keys.old keys.new result }
    ensures asks { AskSignings (period_of config.now) (members_of set.now ∷ []) (all_asked I.key I.asked I.given keys.old) (all_asked I.key I.asked I.given keys.new) result }
{
    for i in 0..keys.len() {
        let made = sign_set(alloc, &mut keys[i], tags[i], set, config, message)?;
        push_one(out, made)?;
    }
    Ok(())
}

/// The tags of keys.
fn tags_of<I: SignRaw>(alloc: Global, keys: &[SigningKey<I>]) -> Result<Vec<u16>, NoMemory>
    ensures { IfOk result (λ tags. tags.items ≡ signer_tags (map (signer_of I.key) keys.now)) }
{
    let mut tags = Vec::with_capacity(alloc, keys.len())?;
    for key in keys {
        tags.push(tag_of(key)?)?;
    }
    Ok(tags)
}

/// Adds a record.
fn push_one(out: &mut Vec<Record>, one: Record) -> Result<(), NoMemory>
    ensures { OnOk result (out.new.items ≡ out.old.items ++ one ∷ []) }
{
    out.push(one)?;
    Ok(())
}
