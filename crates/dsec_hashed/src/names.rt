//! The names that a zone hashes: its owners, and the empty non-terminals above them (RFC 5155 7.1).

ghost use Rattle.std.specs.Prelude.{◌≡◌, ◌==◌, ◌++◌, filter, map, IfOk, OnOk, IsPermutation};
ghost use Rattle.std.specs.List.{list_any};
ghost use Rattle.dsec_spec.specs.Names.{place};
ghost use Rattle.dsec_spec.specs.Numbers.{DS};
ghost use Rattle.dsec_chain.specs.Views.{inside_view};
ghost use Rattle.dsec_hashed.specs.Config.{hashing_of};
ghost use Rattle.dsec_hashed.specs.HashedList.{empty_at, is_kept as kept_by, is_new as new_by, names_of, new_above};
ghost use Rattle.dsec_hashed.specs.HashedTypes.{hashed_as};
ghost use Rattle.dsec_hashed.specs.HashedViews.{hashed_view, is_kept_view, rises};

use crate::hash::hash_in;
use dsec_chain::{InsideOwner, has_own, is_below, is_strictly_below};
use dsec_name::{Name, NoMemory};
use dsec_number::Rtype;
use dsec_sorted::Nsec3Config;
use dsec_wire::Record;
use std::alloc::Global;

/// A name that is hashed, and what stands there: nothing at an empty non-terminal.
#[derive(Clone, Copy)]
pub(crate) struct HashedName<'a> {
    /// The hash.
    pub(crate) hash: [u8; 20],
    /// The records there.
    pub(crate) records: &'a [Record],
    /// Whether another zone begins there.
    pub(crate) is_cut: bool,
}

/// Keeps the owners that owe an NSEC3 record: those at which a type stands, with Opt-Out but for delegations without DS.
pub(crate) fn keep_owing(owners: &mut Vec<InsideOwner<'_>>, opt_out: bool)
    ensures { owners.new.items ≡ filter (is_kept_view opt_out) owners.old.items }
{
    owners.retain(|one| owes(opt_out, one.is_cut, one.records));
}

/// Whether an owner with these records owes an NSEC3 record.
fn owes(opt_out: bool, is_cut: bool, records: &[Record]) -> bool
    ensures { result ≡ kept_by opt_out is_cut records.now }
{
    has_own(is_cut, records) && !(opt_out && is_cut && !has_ds(records))
}

/// Whether one of the records is DS.
fn has_ds(records: &[Record]) -> bool
    ensures { result ≡ list_any (λ r. r.rtype == DS) records.now }
{
    records.iter().any(|one| one.rtype() == Rtype::DS)
}

/// The hashes of owners in canonical order, and of the empty non-terminals above them: each name once, one hash for each. It takes a
/// comparison of names for each, and a copy of each name between an owner and the apex.
pub(crate) fn hashed_names<'a>(
    alloc: Global,
    apex: &Name,
    owners: &[InsideOwner<'a>],
    config: &Nsec3Config,
) -> Result<Vec<HashedName<'a>>, NoMemory>
    ensures { IfOk result (λ all. map hashed_view all.items ≡ map (hashed_as (hashing_of config.now)) (names_of (place apex.now) (place apex.now) (map inside_view owners.now))) }
{
    let mut all = Vec::with_capacity(alloc, owners.len())?;
    let mut before = apex;
    for owner in owners {
        all.push(HashedName {
            hash: hash_in(owner.name, config),
            records: owner.records,
            is_cut: owner.is_cut,
        })?;
        push_empty(&mut all, apex, before, owner.name, config)?;
        before = owner.name;
    }
    Ok(all)
}

/// Adds the names above a name, from the nearest on, up to the apex or to one that is above the owner before it, too: nothing stands at
/// these, and none of them was added before.
fn push_empty(
    all: &mut Vec<HashedName<'_>>,
    apex: &Name,
    before: &Name,
    name: &Name,
    config: &Nsec3Config,
) -> Result<(), NoMemory>
    ensures { OnOk result (map hashed_view all.new.items ≡ map hashed_view all.old.items ++ map (λ n. hashed_as (hashing_of config.now) (empty_at n)) (new_above (place apex.now) (place before.now) name.now)) }
{
    let mut above = name.parent()?;
    while let Some(one) = above {
        if !is_new(apex, before, &one) {
            break;
        }
        all.push(HashedName {
            hash: hash_in(&one, config),
            records: &[],
            is_cut: false,
        })?;
        above = one.parent()?;
    }
    Ok(())
}

/// Whether a name above an owner is below the apex, and not above the owner before.
fn is_new(apex: &Name, before: &Name, name: &Name) -> bool
    ensures { result ≡ new_by (place apex.now) (place before.now) (place name.now) }
{
    is_strictly_below(name, apex) && !is_below(before, name)
}

/// Brings names into the order of their hashes.
pub(crate) fn sort_by_hash(names: &mut Vec<HashedName<'_>>)
    ensures permuted { IsPermutation names.old.items names.new.items }
    ensures sorted { rises names.new.items }
{
    names.sort_unstable_by(|a, b| a.hash.cmp(&b.hash));
}
