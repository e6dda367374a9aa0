//! The judged groups by which something is denied (RFC 4035 5.4).

ghost use Rattle.std.specs.Prelude.{◌≡◌, ◌∷◌, ◌++◌, [], IfOk, OnOk, filter_map};
ghost use Rattle.dsec_nodes.specs.ByDenial.{used_at};

use dsec_crypto::Verifier;
use dsec_found::JudgedGroup;
use dsec_name::NoMemory;
use std::alloc::Global;
use std::marker::Model;

/// A judged group of the authority section by which something is denied, and its index there. The group is shared with those that
/// judging keeps.
#[derive(Drop)]
pub struct UsedGroup<V: Verifier> {
    index: usize,
    judged: JudgedGroup<V>,
}

impl<V: Verifier> Model for UsedGroup<V> {
    ghost use Rattle.dsec_nodes.specs.Outcomes as outcomes;

    ghost Value = { outcomes.Used };

    ghost view = { λ it. record { index = it.index; judged = it.judged } };
}

impl<V: Verifier> UsedGroup<V> {
    /// A judged group and its index.
    fn new(index: usize, judged: JudgedGroup<V>) -> UsedGroup<V>
        ensures { result ≡ record { index = index; judged = judged } }
    {
        UsedGroup { index, judged }
    }

    /// The index in the authority section.
    pub fn index(&self) -> usize
        ensures { result ≡ self.now.index }
    {
        self.index
    }

    /// The group.
    pub fn judged(&self) -> &JudgedGroup<V>
        ensures { result.now ≡ self.now.judged }
    {
        &self.judged
    }
}

/// The judged groups of an authority section at these indexes, in this order.
pub(crate) fn used_by<V: Verifier>(
    alloc: Global,
    authorities: &[JudgedGroup<V>],
    indexes: &[usize],
) -> Result<Vec<UsedGroup<V>>, NoMemory>
    ensures { IfOk result (λ used. used.items ≡ filter_map (used_at authorities.now) indexes.now) }
{
    let mut used = Vec::with_capacity(alloc, indexes.len())?;
    for index in indexes {
        push_used(&mut used, authorities, *index)?;
    }
    Ok(used)
}

/// Adds the judged group at an index, if there is one.
#[tactic(auto, using(crate::proofs::UsedSteps::one_used))]
fn push_used<V: Verifier>(
    used: &mut Vec<UsedGroup<V>>,
    authorities: &[JudgedGroup<V>],
    index: usize,
) -> Result<(), NoMemory>
    ensures { OnOk result (used.new.items ≡ used.old.items ++ filter_map (used_at authorities.now) (index ∷ [])) }
{
    match authorities.get(index) {
        Some(judged) => {
            let judged = judged.clone()?;
            used.push(UsedGroup::new(index, judged))?;
            Ok(())
        }
        None => Ok(()),
    }
}
