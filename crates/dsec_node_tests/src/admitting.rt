//! Whether key sets of lines are admitted, and how often the verifier is asked for it.

ghost use Rattle.std.specs.Prelude.{◌≡◌, ◌<◌, IfSome};
ghost use Rattle.dsec_spec.specs.Numbers.{DNSKEY};

use dsec_asked::Asked;
use dsec_cause::Cause;
use dsec_child::{Admission, admit_by_anchor, admit_by_ds, find_key_for_ds};
use dsec_crypto::StandIn;
use dsec_group::{Group, GroupSet, Seed, Steps, groups};
use dsec_lines::records;
use dsec_name::NoMemory;
use dsec_node::Config;
use dsec_number::{Rtype, Timestamp};
use dsec_wire::{Ds, Record, Records};
use std::alloc::Global;
use std::marker::Brand;
use std::sync::ledger::{Blank, Ledger};

/// What a call comes to: the indexes of the anchor or DS record, of the key and of the signature, or why there is none.
#[derive(Clone, Copy)]
pub(crate) enum Want {
    Admits(usize, usize, usize),
    Refuses(Cause),
}

fn says(answer: Result<Admission, Cause>, want: Want) -> bool {
    match (answer, want) {
        (Ok(it), Want::Admits(via, key, signature)) => {
            it.via == via && it.key == key && it.signature == signature
        }
        (Err(cause), Want::Refuses(why)) => cause == why,
        _ => false,
    }
}

/// The first of these groups, where it is a DNSKEY set.
fn key_set(found: &GroupSet) -> Option<&Group>
    ensures { IfSome result (λ group. group.now.rtype ≡ DNSKEY) }
{
    let group = found.as_slice().first()?;
    if group.rtype() == Rtype::DNSKEY {
        Some(group)
    } else {
        None
    }
}

fn grouped(alloc: Global, section: &[&str]) -> Option<GroupSet> {
    let section = records(alloc, section)?;
    match groups(alloc, Records::new(section), Seed::fixed()) {
        Ok(found) => Some(found),
        Err(_) => None,
    }
}

fn views_of<'a>(alloc: Global, all: &'a [Record]) -> Option<Vec<Ds<'a>>> {
    let mut views = Vec::new(alloc);
    for one in all {
        let Some(ds) = one.rdata().ds() else {
            return None;
        };
        if views.extend_from_slice(&[ds]).is_err() {
            return None;
        }
    }
    Some(views)
}

/// The search in a set of keys, with steps that nobody counts.
fn found_in<L: Ledger>(
    ds: &Ds<'_>,
    group: &Group,
    config: &Config,
    blank: Blank,
) -> (Option<usize>, Option<Cause>)
    requires typed { group.now.rtype ≡ DNSKEY }
    requires name { blank.name ≡ L.name }
    requires parts { blank.parts ≡ L.parts }
    requires some { 0 < L.parts }
{
    let mut steps: Steps<L> = Steps::begin(blank);
    find_key_for_ds::<L>(ds, group.owner(), group.rr_set(), config, &mut steps)
}

/// Whether the search for a DS record's key comes to this, where so many keys are tried.
pub(crate) fn is_found(
    alloc: Global,
    keys: &[&str],
    ds: &str,
    most: u8,
    want: (Option<usize>, Option<Cause>),
) -> bool {
    let mut config = Config::new();
    config.set_max_dnskeys_per_ds(most);
    let (Some(found), Some(ds)) = (grouped(alloc, keys), records(alloc, &[ds])) else {
        return false;
    };
    let (Some(group), Some(views)) = (key_set(&found), views_of(alloc, &ds)) else {
        return false;
    };
    match views.first() {
        Some(view) => found_in::<Brand>(view, group, &config, Blank::new(1)) == want,
        None => false,
    }
}

/// Admission by DS records at the moment 500, with steps that nobody counts.
fn by_ds<L: Ledger>(
    alloc: Global,
    ds: &[Ds<'_>],
    group: &Group,
    config: &Config,
    memo: &mut Asked,
    blank: Blank,
) -> Result<Result<Admission, Cause>, NoMemory>
    requires typed { group.now.rtype ≡ DNSKEY }
    requires name { blank.name ≡ L.name }
    requires parts { blank.parts ≡ L.parts }
    requires some { 0 < L.parts }
{
    let mut steps: Steps<L> = Steps::begin(blank);
    let t = Timestamp::from_int(500);
    admit_by_ds::<StandIn, L>(alloc, ds, group, config, t, memo, &mut steps)
}

/// Admission by anchors at the moment 500, with steps that nobody counts.
fn by_anchors<L: Ledger>(
    alloc: Global,
    anchors: &[Record],
    group: &Group,
    config: &Config,
    memo: &mut Asked,
    blank: Blank,
) -> Result<Result<Admission, Cause>, NoMemory>
    requires typed { group.now.rtype ≡ DNSKEY }
    requires name { blank.name ≡ L.name }
    requires parts { blank.parts ≡ L.parts }
    requires some { 0 < L.parts }
{
    let mut steps: Steps<L> = Steps::begin(blank);
    let t = Timestamp::from_int(500);
    admit_by_anchor::<StandIn, L>(alloc, anchors, group, config, t, memo, &mut steps)
}

/// Whether admission by these DS records comes to this, and asks the verifier so often.
pub(crate) fn is_admitted_by_ds(
    alloc: Global,
    section: &[&str],
    ds: &[Record],
    want: Want,
    asked: u32,
) -> bool {
    let mut memo = Asked { times: 0 };
    let config = Config::new();
    let Some(found) = grouped(alloc, section) else {
        return false;
    };
    let (Some(group), Some(views)) = (key_set(&found), views_of(alloc, ds)) else {
        return false;
    };
    match by_ds::<Brand>(alloc, &views, group, &config, &mut memo, Blank::new(1)) {
        Ok(answer) => says(answer, want) && memo.times == asked,
        Err(NoMemory) => false,
    }
}

pub(crate) fn is_admitted_by_anchors(
    alloc: Global,
    section: &[&str],
    anchors: &[Record],
    want: Want,
    asked: u32,
) -> bool {
    let mut memo = Asked { times: 0 };
    let config = Config::new();
    let Some(found) = grouped(alloc, section) else {
        return false;
    };
    let Some(group) = key_set(&found) else {
        return false;
    };
    match by_anchors::<Brand>(alloc, anchors, group, &config, &mut memo, Blank::new(1)) {
        Ok(answer) => says(answer, want) && memo.times == asked,
        Err(NoMemory) => false,
    }
}
