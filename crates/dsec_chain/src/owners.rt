//! The owners inside a zone, met in canonical order: only the last delegation that was met has to be looked at.

ghost use Rattle.std.specs.Prelude.{◌≡◌, All, IfOk, map, if◌then◌else◌};
ghost use Rattle.dsec_spec.specs.Names.{place};
ghost use Rattle.dsec_spec.specs.CanonicalRecords.{AreOrdered};
ghost use Rattle.dsec_spec.specs.OwnersInside.{AreInside};
ghost use Rattle.dsec_sorted.specs.IterViews.{left_of};
ghost use Rattle.dsec_chain.specs.Views.{HasRecords, IsPlaced, inside_view};

use crate::zone::{cuts, is_open};
use dsec_name::{Name, NoMemory};
use dsec_sorted::RecordsIter;
use dsec_wire::Record;
use std::alloc::Global;

/// An owner inside a zone.
#[derive(Clone, Copy)]
pub struct InsideOwner<'a> {
    /// The owner, as the first record has it.
    pub name: &'a Name,
    /// All records of the owner.
    pub records: &'a [Record],
    /// How many records stand before them.
    pub start: usize,
    /// Whether another zone begins there.
    pub is_cut: bool,
}

/// All owners inside the zone that records in canonical order make, each with its records: those at or below the apex and not strictly
/// below a delegation. It takes one pass, and a few comparisons of names for each record.
pub fn inside_owners<'a>(
    alloc: Global,
    apex: &Name,
    records: &RecordsIter<'a>,
) -> Result<Vec<InsideOwner<'a>>, NoMemory>
    requires { AreOrdered (left_of records.now) }
    ensures inside { IfOk result (λ all. AreInside (place apex.now) (left_of records.now) (map inside_view all.items)) }
    ensures placed { IfOk result (λ all. All (IsPlaced (left_of records.now)) all.items) }
    ensures some { IfOk result (λ all. All HasRecords all.items) }
{
    let mut all = Vec::new(alloc);
    let mut cut = apex;
    let mut has_cut = false;
    let mut rest = *records;
    while let Some(owner) = rest.next() {
        if is_open(apex, has_cut, cut, owner.name) {
            let is_cut = cuts(apex, owner.records);
            let before = records.as_slice().len() - rest.as_slice().len();
            all.push(InsideOwner {
                name: owner.name,
                records: owner.records,
                start: before - owner.records.len(),
                is_cut,
            })?;
            cut = last_cut(is_cut, owner.name, cut);
            has_cut |= is_cut;
        }
    }
    Ok(all)
}

/// The later of two delegations, where the second is one.
fn last_cut<'a>(is_cut: bool, name: &'a Name, cut: &'a Name) -> &'a Name
    ensures { result.now ≡ (if is_cut then name.now else cut.now) }
{
    if is_cut { name } else { cut }
}
