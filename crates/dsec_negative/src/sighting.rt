//! Which groups may deny (RFC 4035 5.3, 5.4).

ghost use Rattle.std.specs.Prelude.{◌≡◌, IfOk};
ghost use Rattle.std.specs.Option.{option_map};
ghost use Rattle.dsec_absence.specs.Evidence.{only_nsec as only, sighting, sighting_by};
ghost use Rattle.dsec_negative.specs.Views.{evidence_of, sighting_view};
ghost use Rattle.dsec_nodes.specs.ByDenial.{is_secure};
ghost use Rattle.dsec_spec.specs.Names.{Labels, place};
ghost use Rattle.dsec_spec.specs.Numbers.{NSEC};
ghost use Rattle.dsec_wire.specs.DataViews.{nsec_view};

use dsec_crypto::Verifier;
use dsec_found::JudgedGroup;
use dsec_group::{Group, ValidationState};
use dsec_name::{Name, NoMemory};
use dsec_number::{Class, Rtype};
use dsec_wire::Nsec;
use std::alloc::Global;

/// What a group is to a denial.
#[derive(Clone, Copy)]
pub(crate) enum Sighting<'a> {
    /// It doesn't count.
    Passed,
    /// It would count, but was made from a wildcard.
    Expanded,
    /// It counts, by these data.
    Counts(Nsec<'a>),
}

/// What a group is to a denial of this class that this zone signed.
pub(crate) fn sighted<'a, V: Verifier>(
    alloc: Global,
    judged: &'a JudgedGroup<V>,
    class: Class,
    signer: &Name,
) -> Result<Sighting<'a>, NoMemory>
    ensures { IfOk result (λ it. sighting_view judged.now.group.owner it ≡ sighting class (place signer.now) (evidence_of judged.now)) }
{
    let group = judged.group();
    if group.rtype() != Rtype::NSEC || group.class() != class || !is_shown(judged) {
        return Ok(Sighting::Passed);
    }
    if judged.signer_name(alloc)? != *signer {
        return Ok(Sighting::Passed);
    }
    Ok(sighted_by(only_nsec(group), judged.is_expanded()))
}

/// Whether links show a group.
fn is_shown<V: Verifier>(judged: &JudgedGroup<V>) -> bool
    ensures { result ≡ is_secure judged.now.finding }
{
    judged.state() == ValidationState::Secure
}

/// What a group is by the data of its one record.
fn sighted_by(only: Option<Nsec<'_>>, is_expanded: bool) -> Sighting<'_>
    ensures { (owner : Labels) → sighting_view owner result ≡ sighting_by is_expanded owner (option_map nsec_view only.entry) }
{
    match only {
        None => Sighting::Passed,
        Some(_) if is_expanded => Sighting::Expanded,
        Some(nsec) => Sighting::Counts(nsec),
    }
}

/// What the group's record says, where it is the only one (RFC 4034 4).
fn only_nsec(group: &Group) -> Option<Nsec<'_>>
    requires { group.now.rtype ≡ NSEC }
    ensures { option_map nsec_view result ≡ only group.now.records }
{
    match group.rr_set() {
        [one] => one.rdata().nsec(),
        _ => None,
    }
}
