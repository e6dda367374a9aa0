//! That a name exists whose closest encloser is known, disproved by a record that covers it (RFC 5155 8.4, 8.8).

ghost use Rattle.std.specs.Prelude.{◌≡◌, ℕ};
ghost use Rattle.dsec_nsec3.specs.Counting.{hashed_sighting};
ghost use Rattle.dsec_nsec3.specs.HashedAnswers as answers;
ghost use Rattle.dsec_nsec3.specs.HashedAnswers.{cover_from, nsec3_for_not_exists_no_ce as no_ce_of, told_by_covering};
ghost use Rattle.dsec_nsec3_calls.specs.Sources.{limits_view, seen_view};
ghost use Rattle.dsec_nsec3_calls.specs.Told.{no_ce_told};
ghost use Rattle.dsec_nsec3_calls.specs.Tellings.{cover_at, told_of, told_or};
ghost use Rattle.dsec_nsec3_calls.specs.Views.{evidence_of, hash_limits, nsec3_at, place_octets, source_of};
ghost use Rattle.dsec_spec.specs.Names.{Place, place};

use crate::shown::{covers, is_own_dname, opts_out};
use crate::sighting::{Sighting, sighted};
use crate::source::Source;
use crate::state::Nsec3NXStateNoCE;
use crate::told::{Told, told_by_end};
use dsec_cause::Cause;
use dsec_crypto::Verifier;
use dsec_group::{Limits, Memo};
use dsec_name::Name;
use dsec_negative::{JudgedGroup, Used};
use dsec_number::Class;
use dsec_sorted::OwnerHash;
use dsec_wire::Nsec3;

/// Whether NSEC3 records among the groups, of this class and signed by this zone, disprove that the target exists, whose closest encloser
/// is known: the first that covers it decides. With the cause, and the index of its group. Besides the hash that each record asks for, one
/// is made where a covering record has DNAME.
pub fn nsec3_for_not_exists_no_ce<V: Verifier>(
    target: &Name,
    groups: &[JudgedGroup<V>],
    class: Class,
    signer: &Name,
    limits: &Limits,
    memo: &mut impl Memo<V>,
) -> (Nsec3NXStateNoCE, Option<Cause>, Used)
    ensures { result ≡ no_ce_told (no_ce_of (hash_limits limits.now) (source_of groups.now class signer.now) (place target.now)) }
{
    let source = Source {
        groups,
        class,
        signer,
        limits,
    };
    match search_cover::<V>(&source, target, memo) {
        Told::Disproved(index) => (Nsec3NXStateNoCE::DoesNotExist, None, Used::one(index)),
        Told::Opened(cause, index) => {
            (
                Nsec3NXStateNoCE::DoesNotExistInsecure,
                cause,
                Used::one(index),
            )
        }
        Told::Broken(cause) => (Nsec3NXStateNoCE::Bogus, Some(cause), Used::none()),
        Told::Unshown(cause) => (Nsec3NXStateNoCE::Nothing, cause, Used::none()),
    }
}

/// What the groups show of the target, which is to be covered.
pub(crate) fn search_cover<V: Verifier>(
    source: &Source<'_, V>,
    target: &Name,
    memo: &mut impl Memo<V>,
) -> Told
    ensures { result ≡ told_of (cover_from (place source.now.signer.now) (place target.now) 0 (seen_view source.now)) }
{
    let octets = target.canonical_octets();
    let zone = source.signer.canonical_octets();
    for index in 0..source.groups.len() {
        let judged = &source.groups[index];
        match cover_by_group::<V>(
            source,
            judged,
            octets.as_slice(),
            zone.as_slice(),
            index,
            memo,
        ) {
            Some(told) => return told,
            None => {}
        }
    }
    Told::Unshown(None)
}

/// What the group at this index shows of the name with these canonical octets, if anything.
fn cover_by_group<V: Verifier>(
    source: &Source<'_, V>,
    judged: &JudgedGroup<V>,
    octets: &[u8],
    zone: &[u8],
    index: usize,
    memo: &mut impl Memo<V>,
) -> Option<Told>
    ensures { (n : Place) (later : answers.Hashed ℕ) → octets.now ≡ place_octets n → zone.now ≡ place_octets (place source.now.signer.now)
        → told_or result (told_of later) ≡ told_of (cover_at (place source.now.signer.now) n index (hashed_sighting (limits_view source.now) source.now.class (place source.now.signer.now) (evidence_of judged.now)) later) }
{
    match sighted(source, judged) {
        Sighting::Ignored => None,
        Sighting::Stops(end) => Some(told_by_end(index, end)),
        Sighting::Hashed(owner, nsec3) => {
            if covers::<V>(octets, &owner, &nsec3, memo) {
                Some(covering::<V>(zone, index, &owner, &nsec3, memo))
            } else {
                None
            }
        }
    }
}

/// What a record of the group at this index tells that covers the name, in the zone whose name has these canonical octets.
fn covering<V: Verifier>(
    zone: &[u8],
    index: usize,
    owner: &OwnerHash,
    nsec3: &Nsec3<'_>,
    memo: &mut impl Memo<V>,
) -> Told
    ensures { (signer n : Place) → zone.now ≡ place_octets signer → result ≡ told_of (told_by_covering signer n index (nsec3_at signer owner.now nsec3.now)) }
{
    if is_own_dname::<V>(zone, owner, nsec3, memo) {
        return Told::Unshown(Some(Cause::Nsec3DnameOrDelegation));
    }
    if opts_out(nsec3) {
        Told::Opened(None, index)
    } else {
        Told::Disproved(index)
    }
}
