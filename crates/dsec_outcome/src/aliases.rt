//! The judged groups of a path of aliases, and those beside them (RFC 1034 3.6.2, RFC 4035 5.3.4).

ghost use Rattle.std.specs.Prelude.{◌≡◌, ◌∷◌, ◌++◌, [], IfOk, OnOk};
ghost use Rattle.dsec_outcome.specs.Aliases.{aliases_at, beside_at, denials_at};

use crate::used::{UsedGroup, used_by};
use dsec_crypto::Verifier;
use dsec_follow::AliasStep;
use dsec_found::JudgedGroup;
use dsec_name::NoMemory;
use std::alloc::Global;

/// The judged groups that the aliases of these steps are, in this order.
pub(crate) fn aliases_on<V: Verifier>(
    alloc: Global,
    answers: &[JudgedGroup<V>],
    steps: &[AliasStep],
) -> Result<Vec<JudgedGroup<V>>, NoMemory>
    ensures { IfOk result (λ aliases. aliases.items ≡ aliases_at answers.now steps.now) }
{
    let mut aliases = Vec::with_capacity(alloc, steps.len())?;
    for step in steps {
        push_alias(&mut aliases, answers, step)?;
    }
    Ok(aliases)
}

/// Adds the judged group that the alias of a step is, if there is one.
#[tactic(auto, using(crate::proofs::AliasSteps::one_alias))]
fn push_alias<V: Verifier>(
    aliases: &mut Vec<JudgedGroup<V>>,
    answers: &[JudgedGroup<V>],
    step: &AliasStep,
) -> Result<(), NoMemory>
    ensures { OnOk result (aliases.new.items ≡ aliases.old.items ++ aliases_at answers.now (step.now ∷ [])) }
{
    match answers.get(step.group()) {
        Some(alias) => {
            let alias = alias.clone()?;
            aliases.push(alias)?;
            Ok(())
        }
        None => Ok(()),
    }
}

/// The judged groups that stand beside the aliases of these steps, in this order.
pub(crate) fn denials_on<V: Verifier>(
    alloc: Global,
    authorities: &[JudgedGroup<V>],
    steps: &[AliasStep],
) -> Result<Vec<UsedGroup<V>>, NoMemory>
    ensures { IfOk result (λ beside. beside.items ≡ denials_at authorities.now steps.now) }
{
    let mut beside = Vec::new(alloc);
    for step in steps {
        push_beside(alloc, &mut beside, authorities, step)?;
    }
    Ok(beside)
}

/// Adds the judged groups that stand beside the alias of a step.
fn push_beside<V: Verifier>(
    alloc: Global,
    beside: &mut Vec<UsedGroup<V>>,
    authorities: &[JudgedGroup<V>],
    step: &AliasStep,
) -> Result<(), NoMemory>
    ensures { OnOk result (beside.new.items ≡ beside.old.items ++ beside_at authorities.now step.now) }
{
    let mut used = used_by(alloc, authorities, step.used().as_slice())?;
    beside.append(&mut used)?;
    Ok(())
}
