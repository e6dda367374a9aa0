//! The walk from the zone's name down to another, for its closest encloser (RFC 5155 8.3).

ghost use Rattle.std.specs.Prelude.{◌≡◌, ◌≤◌};
ghost use Rattle.dsec_nsec3.specs.Walks.{nsec3_for_not_exists};
ghost use Rattle.dsec_nsec3_calls.specs.Sources.{limits_view, source_view};
ghost use Rattle.dsec_nsec3_calls.specs.Walked.{walk_view};
ghost use Rattle.dsec_spec.specs.Names.{place};

use crate::asked::{Asked, after_labels};
use crate::look::look_for;
use crate::source::Source;
use crate::step::{Candidate, Step, Walk, is_signer, next_step};
use dsec_crypto::Verifier;
use dsec_group::Memo;
use dsec_name::Name;

/// Whether the target exists, by its closest encloser: from the zone's name, the first candidate, down to the target; and how many hashes
/// may still be made. Each hash is counted before it is made, and the canonical octets of both names are all that is copied.
pub(crate) fn walk<V: Verifier>(
    source: &Source<'_, V>,
    target: &Name,
    memo: &mut impl Memo<V>,
) -> (Walk, u8)
    ensures walk { walk_view target.now result.0 ≡ nsec3_for_not_exists (limits_view source.now) (source_view source.now) (place target.now) }
    ensures fewer { result.1 ≤ source.now.limits.now.max_nsec3_hashes }
{
    let octets = target.canonical_octets();
    let zone = source.signer.canonical_octets();
    let labels = target.label_count() - 1;
    let mut left = source.limits.max_nsec3_hashes;
    let mut above = Candidate::Signer;
    for depth in source.signer.label_count() - 1..labels {
        let asked = Asked {
            octets: after_labels(octets.as_slice(), labels - 1 - depth),
            zone: zone.as_slice(),
            is_top: is_signer(above),
        };
        let (look, after) = look_for::<V>(source, &asked, left, memo);
        left = after;
        match next_step(look, above, depth) {
            Step::On(next) => above = next,
            Step::Ends(walk) => return (walk, left),
        }
    }
    (Walk::Unfound, left)
}
