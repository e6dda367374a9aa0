//! The SOA set of a reply that denies (RFC 2308 2.1, 2.2).

ghost use Rattle.std.specs.Prelude.{◌≡◌, IfSome};
ghost use Rattle.std.specs.List.{list_any};
ghost use Rattle.std.specs.Option.{option_map};
ghost use Rattle.dsec_absence.specs.Replies.{is_other_soa as other_soa, is_soa as soa, is_soa_elsewhere as soa_elsewhere, is_soa_for as soa_for, no_soa_cause as no_soa, soa_at, soa_cause};
ghost use Rattle.dsec_negative.specs.Told.{HasState, index_in};
ghost use Rattle.dsec_nodes.specs.Judging.{Judged};
ghost use Rattle.dsec_spec.specs.Islands.{island, looked_for_at};
ghost use Rattle.dsec_spec.specs.Names.{place};

use dsec_anchors::{is_over_sets, island_owner};
use dsec_cause::Cause;
use dsec_crypto::Verifier;
use dsec_found::{JudgedGroup, is_above_island};
use dsec_group::{Group, ValidationState};
use dsec_name::Name;
use dsec_number::{Class, Rtype};
use dsec_wire::Record;

/// The index and the state of the first SOA set of the class that counts for a name and a type: at or above where sets of the type are
/// looked for, which for DS is strictly above the name, and not strictly above its island. Else why none does, where there is a
/// cause: one of the class isn't at or above there, or one is of another class.
pub fn get_soa_state<V: Verifier>(
    name: &Name,
    class: Class,
    rtype: Rtype,
    authorities: &[JudgedGroup<V>],
    anchors: &[Record],
) -> (Option<(usize, ValidationState)>, Option<Cause>)
    ensures index { option_map index_in result.0 ≡ soa_at (island anchors.now (place name.now) rtype) (looked_for_at (place name.now) rtype) class (λ (j : Judged). j.group) authorities.now }
    ensures state { IfSome result.0 (λ found. HasState authorities.now found.0 found.1) }
    ensures cause { result.1 ≡ soa_cause (looked_for_at (place name.now) rtype) class (λ (j : Judged). j.group) authorities.now (option_map index_in result.0) }
{
    let top = island_owner(anchors, name, rtype);
    match soa_in(top, name, class, rtype, authorities) {
        Some(index) => (Some((index, authorities[index].state())), None),
        None => (None, no_soa_cause(name, class, rtype, authorities)),
    }
}

/// The index of the first SOA set that counts.
fn soa_in<V: Verifier>(
    top: Option<&Name>,
    name: &Name,
    class: Class,
    rtype: Rtype,
    authorities: &[JudgedGroup<V>],
) -> Option<usize>
    ensures { result ≡ soa_at (option_map (λ top. place top.now) top.entry) (looked_for_at (place name.now) rtype) class (λ (j : Judged). j.group) authorities.now }
{
    authorities
        .iter()
        .position(|one| is_soa_for(top, name, class, rtype, one.group()))
}

/// Whether an SOA set counts for the name and the type, whose island is known.
fn is_soa_for(top: Option<&Name>, name: &Name, class: Class, rtype: Rtype, group: &Group) -> bool
    ensures { result ≡ soa_for (option_map (λ top. place top.now) top.entry) (looked_for_at (place name.now) rtype) class group.now }
{
    let owner = group.owner();
    is_soa(class, group) && is_over_sets(owner, name, rtype) && !is_above_island(top, owner)
}

/// Whether a group is an SOA set of the class.
fn is_soa(class: Class, group: &Group) -> bool
    ensures { result ≡ soa class group.now }
{
    group.rtype() == Rtype::SOA && group.class() == class
}

/// Why no SOA set counts, where there is a cause.
fn no_soa_cause<V: Verifier>(
    name: &Name,
    class: Class,
    rtype: Rtype,
    authorities: &[JudgedGroup<V>],
) -> Option<Cause>
    ensures { result ≡ no_soa (looked_for_at (place name.now) rtype) class (λ (j : Judged). j.group) authorities.now }
{
    if is_any_elsewhere(name, class, rtype, authorities) {
        return Some(Cause::SoaWrongName);
    }
    if is_any_other(class, authorities) {
        return Some(Cause::SoaWrongClass);
    }
    None
}

/// Whether a group is an SOA set of the class, and not at or above where sets of the type are looked for.
fn is_any_elsewhere<V: Verifier>(
    name: &Name,
    class: Class,
    rtype: Rtype,
    authorities: &[JudgedGroup<V>],
) -> bool
    ensures { result ≡ list_any (λ (j : Judged). soa_elsewhere (looked_for_at (place name.now) rtype) class j.group) authorities.now }
{
    authorities
        .iter()
        .any(|one| is_soa_elsewhere(name, class, rtype, one.group()))
}

/// Whether a group is an SOA set of another class.
fn is_any_other<V: Verifier>(class: Class, authorities: &[JudgedGroup<V>]) -> bool
    ensures { result ≡ list_any (λ (j : Judged). other_soa class j.group) authorities.now }
{
    authorities
        .iter()
        .any(|one| is_other_soa(class, one.group()))
}

/// Whether a group is an SOA set of the class, and not at or above where sets of the type are looked for.
fn is_soa_elsewhere(name: &Name, class: Class, rtype: Rtype, group: &Group) -> bool
    ensures { result ≡ soa_elsewhere (looked_for_at (place name.now) rtype) class group.now }
{
    is_soa(class, group) && !is_over_sets(group.owner(), name, rtype)
}

/// Whether a group is an SOA set of another class.
fn is_other_soa(class: Class, group: &Group) -> bool
    ensures { result ≡ other_soa class group.now }
{
    group.rtype() == Rtype::SOA && group.class() != class
}
