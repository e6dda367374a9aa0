//! That a type stands at a name, disproved by the record that matches the name (RFC 5155 8.5, 8.6).

ghost use Rattle.std.specs.Prelude.{◌≡◌, ℕ, Option};
ghost use Rattle.dsec_nsec3.specs.Counting.{hashed_sighting};
ghost use Rattle.dsec_nsec3.specs.HashedAnswers as answers;
ghost use Rattle.dsec_nsec3.specs.HashedAnswers.{ds_by_walk, type_by_hash as by_hash, type_from};
ghost use Rattle.dsec_nsec3.specs.Walks as walks;
ghost use Rattle.dsec_nsec3_calls.specs.Sources.{limits_view, seen_view, source_view};
ghost use Rattle.dsec_nsec3_calls.specs.Tellings.{told_of, told_or, type_at};
ghost use Rattle.dsec_nsec3_calls.specs.Views.{evidence_of, place_octets};
ghost use Rattle.dsec_nsec3_calls.specs.Walked.{walk_view};
ghost use Rattle.dsec_spec.specs.Names.{Labels, Place, place};

use crate::shown::{matches, own_shows};
use crate::sighting::{Sighting, sighted};
use crate::source::Source;
use crate::step::Walk;
use crate::told::{Told, told_by_end};
use crate::walk::walk;
use dsec_cause::Cause;
use dsec_crypto::Verifier;
use dsec_group::Memo;
use dsec_name::Name;
use dsec_negative::JudgedGroup;
use dsec_number::Rtype;

/// What is told of a type at the target. Of DS it is told by the target's closest encloser first: a missing name is denied none, and with
/// Opt-Out it may be a delegation without DS.
pub(crate) fn type_by_hash<V: Verifier>(
    source: &Source<'_, V>,
    target: &Name,
    rtype: Rtype,
    memo: &mut impl Memo<V>,
) -> Told
    ensures { result ≡ told_of (by_hash (limits_view source.now) (source_view source.now) (place target.now) rtype) }
{
    if rtype != Rtype::DS {
        return search_type::<V>(source, target, rtype, memo);
    }
    let (walk, _) = walk::<V>(source, target, memo);
    match ds_by(walk) {
        Some(told) => told,
        None => search_type::<V>(source, target, rtype, memo),
    }
}

/// What is told of DS at a name by what the walk down to it came to, if anything.
fn ds_by(walk: Walk) -> Option<Told>
    ensures { (name : Labels) (n : Place) (later : answers.Hashed ℕ) → told_or result (told_of later) ≡ told_of (ds_by_walk n (walk_view name walk) later) }
{
    match walk {
        Walk::Gone(gone) => Some(ds_of_missing(gone.opt_out, gone.around)),
        Walk::Halted(index, end) => Some(told_by_end(index, end)),
        Walk::Barred | Walk::Exhausted | Walk::Unfound => None,
    }
}

/// What is told of DS at a missing name.
fn ds_of_missing(opt_out: bool, around: usize) -> Told
    ensures { (n c : Place) (at_encloser : Option ℕ) (later : answers.Hashed ℕ) → result ≡ told_of (ds_by_walk n (walks.gone c at_encloser around opt_out) later) }
{
    if opt_out {
        Told::Opened(Some(Cause::Nsec3OptOut), around)
    } else {
        Told::Unshown(None)
    }
}

/// What the groups show of a type at the target: the first record that matches the target decides.
fn search_type<V: Verifier>(
    source: &Source<'_, V>,
    target: &Name,
    rtype: Rtype,
    memo: &mut impl Memo<V>,
) -> Told
    ensures { result ≡ told_of (type_from (place target.now) rtype 0 (seen_view source.now)) }
{
    let octets = target.canonical_octets();
    for index in 0..source.groups.len() {
        let judged = &source.groups[index];
        match type_by_group::<V>(
            source,
            judged,
            octets.as_slice(),
            target,
            index,
            rtype,
            memo,
        ) {
            Some(told) => return told,
            None => {}
        }
    }
    Told::Unshown(None)
}

/// What the group at this index shows of a type at the target, which has these canonical octets, if anything.
fn type_by_group<V: Verifier>(
    source: &Source<'_, V>,
    judged: &JudgedGroup<V>,
    octets: &[u8],
    target: &Name,
    index: usize,
    rtype: Rtype,
    memo: &mut impl Memo<V>,
) -> Option<Told>
    ensures { (later : answers.Hashed ℕ) → octets.now ≡ place_octets (place target.now)
        → told_or result (told_of later) ≡ told_of (type_at (place target.now) rtype index (hashed_sighting (limits_view source.now) source.now.class (place source.now.signer.now) (evidence_of judged.now)) later) }
{
    match sighted(source, judged) {
        Sighting::Ignored => None,
        Sighting::Stops(end) => Some(told_by_end(index, end)),
        Sighting::Hashed(owner, nsec3) => {
            if matches::<V>(octets, &owner, &nsec3, memo) {
                Some(own_shows(index, &nsec3, target, rtype))
            } else {
                None
            }
        }
    }
}
