//! What NSEC3 records show of the name next to a candidate for the closest encloser (RFC 5155 8.3).

ghost use Rattle.std.specs.Prelude.{◌≡◌, ◌≤◌, ℕ};
ghost use Rattle.dsec_nsec3.specs.Counting.{hashed_sighting};
ghost use Rattle.dsec_nsec3.specs.Walks as walks;
ghost use Rattle.dsec_nsec3.specs.Walks.{look_from};
ghost use Rattle.dsec_nsec3_calls.specs.Looks.{glance_left, glance_to, look_at, look_view, top_of};
ghost use Rattle.dsec_nsec3_calls.specs.Sources.{limits_view, seen_view};
ghost use Rattle.dsec_nsec3_calls.specs.Views.{evidence_of, place_octets};
ghost use Rattle.dsec_spec.specs.Names.{Place, place};

use crate::asked::Asked;
use crate::by_record::by_record;
use crate::sighting::{End, Sighting, sighted};
use crate::source::Source;
use dsec_crypto::Verifier;
use dsec_group::Memo;
use dsec_negative::JudgedGroup;

/// What groups show of a name, by the group at an index.
#[derive(Clone, Copy)]
pub(crate) enum Look {
    /// Its record matches the name, and lets names below be denied.
    Matched(usize),
    /// Its record covers the name, and whether with Opt-Out.
    Covered(usize, bool),
    /// None matches or covers it.
    Unseen,
    /// A DNAME or a delegation stands there, or above.
    Bars,
    /// The group ends the call.
    Halts(usize, End),
    /// A record needs a hash, and no more are made.
    Exhausts,
}

/// What one group shows.
#[derive(Clone, Copy)]
pub(crate) enum Glance {
    /// Nothing; and how many hashes may still be made.
    Past(u8),
    /// What decides; and how many hashes may still be made.
    Ends(Look, u8),
}

/// What the groups show of the name, where so many hashes may be made; and how many still may. The first record that matches or covers
/// the name decides.
pub(crate) fn look_for<V: Verifier>(
    source: &Source<'_, V>,
    asked: &Asked<'_>,
    room: u8,
    memo: &mut impl Memo<V>,
) -> (Look, u8)
    ensures look { (n : Place) → asked.now.octets.now ≡ place_octets n → asked.now.zone.now ≡ place_octets (place source.now.signer.now)
        → look_view result.0 result.1 ≡ look_from (top_of asked.now.is_top (place source.now.signer.now)) n 0 room (seen_view source.now) }
    ensures fewer { result.1 ≤ room }
{
    let mut left = room;
    for index in 0..source.groups.len() {
        match by_group::<V>(source, &source.groups[index], asked, index, left, memo) {
            Glance::Past(after) => left = after,
            Glance::Ends(look, after) => return (look, after),
        }
    }
    (Look::Unseen, left)
}

/// What one group, which stands at this index, shows of the name.
fn by_group<V: Verifier>(
    source: &Source<'_, V>,
    judged: &JudgedGroup<V>,
    asked: &Asked<'_>,
    index: usize,
    room: u8,
    memo: &mut impl Memo<V>,
) -> Glance
    ensures look { (n : Place) (later : ℕ → walks.Look) → asked.now.octets.now ≡ place_octets n → asked.now.zone.now ≡ place_octets (place source.now.signer.now)
        → glance_to result later ≡ look_at (top_of asked.now.is_top (place source.now.signer.now)) n index room (hashed_sighting (limits_view source.now) source.now.class (place source.now.signer.now) (evidence_of judged.now)) later }
    ensures fewer { glance_left result ≤ room }
{
    match sighted(source, judged) {
        Sighting::Ignored => Glance::Past(room),
        Sighting::Stops(end) => Glance::Ends(Look::Halts(index, end), room),
        Sighting::Hashed(owner, nsec3) => {
            if room == 0 {
                return Glance::Ends(Look::Exhausts, 0);
            }
            by_record::<V>(asked, index, room - 1, &owner, &nsec3, memo)
        }
    }
}
