//! Judged groups with the TTLs that they are cut to (RFC 4035 5.3.3).

ghost use Rattle.std.specs.Prelude.{◌≡◌, ◌||◌, IfOk, map};
ghost use Rattle.std.specs.List.{list_any};
ghost use Rattle.dsec_nodes.specs.World.{on_circle};
ghost use Rattle.dsec_cut.specs.Cuts.{are_due as due, bound_by, bounded_at};
ghost use Rattle.dsec_rewrite.specs.Cutting.{is_changed};
ghost use Rattle.dsec_rewrite.specs.Views.{bounded_view};

use dsec_crypto::Verifier;
use dsec_found::JudgedGroup;
use dsec_name::NoMemory;
use dsec_number::{Timestamp, Ttl};
use dsec_rewrite::{BoundedGroup, adjusted_ttl};
use std::alloc::Global;

/// Judged groups, each with the TTL that its records are cut to at a moment, in seconds since 1970.
pub fn all_bounded<V: Verifier>(
    alloc: Global,
    groups: &[JudgedGroup<V>],
    moment: u64,
) -> Result<Vec<BoundedGroup<'_>>, NoMemory>
    ensures { IfOk result (λ all. map bounded_view all.items ≡ map (bounded_at (on_circle moment)) groups.now) }
{
    let mut all = Vec::new(alloc);
    for one in groups {
        all.extend_from_slice(&[bounded(one, moment)])?;
    }
    Ok(all)
}

/// A judged group, with the TTL that its records are cut to at a moment, in seconds since 1970: only where links show its set.
pub fn bounded<V: Verifier>(judged: &JudgedGroup<V>, moment: u64) -> BoundedGroup<'_>
    ensures { bounded_view result ≡ bounded_at (on_circle moment) judged.now }
{
    BoundedGroup {
        group: judged.group(),
        adjust_ttl: bound_of(judged, moment),
    }
}

/// The TTL that its records are cut to, where they are.
#[tactic(auto, using(crate::proofs::BoundedSteps::bound_so))]
fn bound_of<V: Verifier>(judged: &JudgedGroup<V>, moment: u64) -> Option<Ttl>
    ensures { result ≡ bound_by (on_circle moment) judged.now.group judged.now.finding }
{
    match judged.signature() {
        Some(signature) => {
            adjusted_ttl(judged.group(), signature, Timestamp::from_seconds(moment))
        }
        None => None,
    }
}

/// Whether a rewriting is due by judged groups of the answer and of the authority section.
pub(crate) fn are_due<V: Verifier>(
    answers: &[JudgedGroup<V>],
    authorities: &[JudgedGroup<V>],
    moment: u64,
) -> bool
    ensures { result ≡ due (on_circle moment) (answers.now, authorities.now) }
{
    any_changed(answers, moment) || any_changed(authorities, moment)
}

/// Whether the records of a group differ from those that came.
fn any_changed<V: Verifier>(groups: &[JudgedGroup<V>], moment: u64) -> bool
    ensures { result ≡ list_any is_changed (map (bounded_at (on_circle moment)) groups.now) }
{
    one_changed(groups, moment)
}

/// The same, of the groups as they were judged.
fn one_changed<V: Verifier>(groups: &[JudgedGroup<V>], moment: u64) -> bool
    ensures { result ≡ list_any (λ j. is_changed (bounded_at (on_circle moment) j)) groups.now }
{
    groups.iter().any(|one| is_one_changed(one, moment))
}

/// Whether its records differ from those that came: their TTLs are cut, or there were duplicates.
fn is_one_changed<V: Verifier>(judged: &JudgedGroup<V>, moment: u64) -> bool
    ensures { result ≡ is_changed (bounded_at (on_circle moment) judged.now) }
{
    bound_of(judged, moment).is_some() || judged.group().found_duplicate()
}
