//! The search for the key that a DS record speaks of, in which each digest is a step (RFC 4034 5.1.4, RFC 4035 5.2).

ghost use Rattle.std.specs.Prelude.{◌≡◌, ◌≤◌, ◌+◌, IfSome, Some, map, slice_get};
ghost use Rattle.dsec_spec.specs.DelegationSigner.{has_digest, names, speaks_of};
ghost use Rattle.dsec_spec.specs.KeySearch.{first_key};
ghost use Rattle.dsec_spec.specs.KeyTag.{key_tag};
ghost use Rattle.dsec_spec.specs.Numbers.{DNSKEY};
ghost use Rattle.dsec_spec.specs.Records.{key_of};
ghost use Rattle.dsec_wire.specs.DataViews.{ds_view};
ghost use Rattle.dsec_wire.specs.Views.{key_view};
ghost use Rattle.dsec_link.specs.KeySearches.{search_view, trial_of};
ghost use Rattle.dsec_link.specs.Sets.{AreRecordsOf};
ghost use Rattle.dsec_link.specs.TaggedKeys.{tagged_view};
ghost use Rattle.dsec_node.specs.KeyTags.{AreTags};
ghost use Rattle.dsec_child.specs.Searches.{answer_of, digests_by, digests_for, digests_of};

use dsec_cause::Cause;
use dsec_group::Steps;
use dsec_link::{DnskeyExt, KeySearch, KeyTrial, TaggedKey, supported_digest};
use dsec_name::Name;
use dsec_node::{Config, tag_at};
use dsec_wire::{Dnskey, Ds, Record};
use std::sync::ledger::Ledger;

/// The index of the first key of the owner that the DS record speaks of, among DNSKEY records in order, or why there is
/// none, where that has a cause of its own. Of the keys with the record's algorithm and tag `max_dnskeys_per_ds` are tried at
/// most: keys can be made to have one tag. Each digest that is taken is one step.
pub fn find_key_for_ds<L: Ledger>(
    ds: &Ds<'_>,
    owner: &Name,
    keys: &[Record],
    config: &Config,
    steps: &mut Steps<L>,
) -> (Option<usize>, Option<Cause>)
    requires { AreRecordsOf DNSKEY keys.now }
    ensures found { result ≡ answer_of (first_key (ds_view ds.now) owner.now config.now.max_dnskeys_per_ds (map (λ one. one.rdata) keys.now)) }
    ensures counted { steps.new ≡ steps.old + digests_for (ds_view ds.now) owner.now config.now.max_dnskeys_per_ds (map (λ one. one.rdata) keys.now) }
    ensures bound { steps.new ≤ steps.old + config.now.max_dnskeys_per_ds }
{
    match search_key(
        ds,
        owner,
        keys,
        None,
        usize::from(config.max_dnskeys_per_ds()),
        steps,
    ) {
        KeySearch::FoundAt(index) => (Some(index), None),
        KeySearch::NotFound => (None, None),
        KeySearch::TooMany => (None, Some(Cause::TooManyDnskeysForDs)),
    }
}

/// What the search comes to. The tags of the keys are these, where they were summed, and else each is summed here, once.
pub(crate) fn search_key<L: Ledger>(
    ds: &Ds<'_>,
    owner: &Name,
    keys: &[Record],
    tags: Option<&[u16]>,
    most: usize,
    steps: &mut Steps<L>,
) -> KeySearch
    requires typed { AreRecordsOf DNSKEY keys.now }
    requires tags { IfSome tags (λ all. AreTags all.now (map (λ one. one.rdata) keys.now)) }
    ensures found { search_view result ≡ first_key (ds_view ds.now) owner.now most (map (λ one. one.rdata) keys.now) }
    ensures counted { steps.new ≡ steps.old + digests_for (ds_view ds.now) owner.now most (map (λ one. one.rdata) keys.now) }
    ensures bound { steps.new ≤ steps.old + most }
{
    let mut left = most;
    for index in 0..keys.len() {
        let key = said_by(&keys[index]);
        let tag = tag_of(tags, index, &key);
        let key = TaggedKey { key, tag };
        match try_key(ds, owner, &key, left > 0, steps) {
            KeyTrial::Match => return KeySearch::FoundAt(index),
            KeyTrial::Mismatch => left -= 1,
            KeyTrial::Other => {}
            KeyTrial::Excess => return KeySearch::TooMany,
        }
    }
    KeySearch::NotFound
}

/// The key that a DNSKEY record says.
fn said_by(one: &Record) -> Dnskey<'_>
    requires { one.now.rtype ≡ DNSKEY }
    ensures { Some (key_view result) ≡ key_of one.now.rdata }
{
    match one.rdata().dnskey() {
        Some(key) => key,
        None => unreachable!(),
    }
}

/// The tag of a key, which stands at an index among these, or else is summed.
fn tag_of(tags: Option<&[u16]>, index: usize, key: &Dnskey<'_>) -> u16
    requires { IfSome tags (λ all. slice_get all.now index ≡ Some (key_tag (key_view key.now))) }
    ensures { result ≡ key_tag (key_view key.now) }
{
    match tags {
        Some(tags) => tag_at(tags, index, key),
        None => key.key_tag(),
    }
}

/// What comes of a key, where it may be tried or not.
fn try_key<L: Ledger>(
    ds: &Ds<'_>,
    owner: &Name,
    key: &TaggedKey<'_>,
    may: bool,
    steps: &mut Steps<L>,
) -> KeyTrial
    ensures found { result ≡ trial_of (names (ds_view ds.now) (tagged_view key.now)) (speaks_of (ds_view ds.now) owner.now (tagged_view key.now)) may }
    ensures counted { steps.new ≡ steps.old + digests_by (ds_view ds.now) result }
{
    if !names_key(ds, key) {
        KeyTrial::Other
    } else if !may {
        KeyTrial::Excess
    } else if has_digest_counted(ds, owner, &key.key, steps) {
        KeyTrial::Match
    } else {
        KeyTrial::Mismatch
    }
}

/// Whether the record has the algorithm and the tag of the key (RFC 4034 5.1.1, 5.1.2).
fn names_key(ds: &Ds<'_>, key: &TaggedKey<'_>) -> bool
    ensures { result ≡ names (ds_view ds.now) (tagged_view key.now) }
{
    ds.algorithm == key.key.algorithm && ds.key_tag == key.tag
}

/// Whether the record's digest is that of the owner's key: one step, where there is a digest of its type.
#[tactic(auto, using(crate::proofs::SearchSteps::not_supported))]
fn has_digest_counted<L: Ledger>(
    ds: &Ds<'_>,
    owner: &Name,
    key: &Dnskey<'_>,
    steps: &mut Steps<L>,
) -> bool
    ensures taken { result ≡ has_digest (ds_view ds.now) owner.now (key_view key.now) }
    ensures counted { steps.new ≡ steps.old + digests_of (ds_view ds.now) 1 }
{
    if !supported_digest(ds.digest_type) {
        return false;
    }
    steps.tick();
    has_digest_of(ds, owner, key)
}

/// Whether the record's digest is that of the owner's key (RFC 4034 5.1.4).
fn has_digest_of(ds: &Ds<'_>, owner: &Name, key: &Dnskey<'_>) -> bool
    ensures { result ≡ has_digest (ds_view ds.now) owner.now (key_view key.now) }
{
    match key.digest(owner, ds.digest_type) {
        Ok(digest) => ds.digest == digest.as_ref(),
        Err(_) => false,
    }
}
