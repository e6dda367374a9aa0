//! Which groups are expansions of wildcards (RFC 4035 5.3.4).

ghost use Rattle.std.specs.Prelude.{◌≡◌, IfOk};
ghost use Rattle.dsec_nodes.specs.Aliases.{expansion_in};
ghost use Rattle.dsec_nodes.specs.ByDenial.{encloser_of as encloser_in};
ghost use Rattle.dsec_spec.specs.JudgedGroups.{encloser_in as encloser_by_labels};
ghost use Rattle.dsec_spec.specs.Numbers.{RRSIG};

use dsec_crypto::Verifier;
use dsec_found::JudgedGroup;
use dsec_group::Group;
use dsec_name::{Name, NoMemory};
use dsec_wire::Record;
use std::alloc::Global;

/// The closest encloser of a group that links show as an expansion of a wildcard: the name that the wildcard is under. None for a
/// group that they don't show, or show as no expansion.
#[tactic(auto, using(crate::proofs::CandidateSteps::expansion_by))]
pub fn closest_encloser<V: Verifier>(
    alloc: Global,
    judged: &JudgedGroup<V>,
) -> Result<Option<Name>, NoMemory>
    ensures { IfOk result (λ encloser. encloser ≡ expansion_in judged.now.group judged.now.finding) }
{
    match judged.signature() {
        Some(signature) => encloser_of(alloc, judged.group(), signature),
        None => Ok(None),
    }
}

/// The closest encloser by what a signature counts; none where the group isn't an expansion.
fn encloser_of(alloc: Global, group: &Group, signature: &Record) -> Result<Option<Name>, NoMemory>
    requires { signature.now.rtype ≡ RRSIG }
    ensures { IfOk result (λ encloser. encloser ≡ encloser_in group.now signature.now) }
{
    match signature.rdata().rrsig() {
        Some(rrsig) => encloser_by(alloc, group.owner(), rrsig.labels),
        None => Ok(None),
    }
}

/// The closest encloser of an owner that is an expansion by a signature that counts so many labels.
#[tactic(auto, using(dsec_denial::proofs::ExpansionLaws::expansion_counts))]
fn encloser_by(alloc: Global, owner: &Name, labels: u8) -> Result<Option<Name>, NoMemory>
    ensures { IfOk result (λ encloser. encloser ≡ encloser_by_labels labels owner.now) }
{
    if labels < owner.rrsig_label_count() {
        let encloser = owner.ancestor(alloc, usize::from(labels))?;
        return Ok(Some(encloser));
    }
    Ok(None)
}
