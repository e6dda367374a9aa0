//! The judged groups by which a message is rewritten (RFC 2181 5, RFC 4035 5.3.3).

ghost use Rattle.std.specs.Prelude.{◌≡◌, ◌&&◌, ◌==◌, length};
ghost use Rattle.std.specs.List.{list_any};
ghost use Rattle.std.specs.Option.{option_map};
ghost use Rattle.std.proofs.Math.Bool.{not};
ghost use Rattle.dsec_nodes.specs.World.{on_circle};
ghost use Rattle.dsec_cut.specs.Cuts.{to_rewrite};
ghost use Rattle.dsec_cut.specs.Ended.{both_in, is_found_bogus, is_over as over, is_whole as whole};

use super::{Course, Waits};
use crate::bounds::are_due;
use dsec_crypto::Verifier;
use dsec_found::JudgedGroup;
use dsec_group::ValidationState;

impl<V: Verifier> Course<V> {
    /// The judged groups of both sections, where all are judged, none is bogus, and a rewriting is due at a moment.
    pub(crate) fn handed_on(&self, moment: u64) -> Option<(&[JudgedGroup<V>], &[JudgedGroup<V>])>
        ensures { option_map (λ both. (both.0.now, both.1.now)) result ≡ to_rewrite (on_circle moment) self.now }
    {
        let (answers, authorities) = self.both();
        if self.is_whole() && are_due(answers, authorities, moment) {
            Some((answers, authorities))
        } else {
            None
        }
    }

    /// The judged groups of the answer section, and of the authority section.
    pub(super) fn both(&self) -> (&[JudgedGroup<V>], &[JudgedGroup<V>])
        ensures { (result.0.now, result.1.now) ≡ both_in self.now }
    {
        self.judged.split_at(self.answers.min(self.judged.len()))
    }

    /// Whether judging has come to its end with every group, none of them bogus.
    fn is_whole(&self) -> bool
        ensures { result ≡ whole self.now }
    {
        self.is_over() && (self.left.is_empty() && !any_bogus(&self.judged))
    }

    /// Whether nothing is waited for.
    fn is_over(&self) -> bool
        ensures { result ≡ over self.now.waits }
    {
        match &self.waits {
            Waits::ToBegin => false,
            Waits::ToEnd(_) => false,
            Waits::ForWalk(_, _) => false,
            Waits::ForNothing => true,
        }
    }
}

/// Whether any group is bogus.
fn any_bogus<V: Verifier>(judged: &[JudgedGroup<V>]) -> bool
    ensures { result ≡ list_any (λ j. is_found_bogus j.finding) judged.now }
{
    judged.iter().any(|one| is_bogus(one))
}

/// Whether a group is bogus.
#[tactic(auto, using(crate::proofs::HandingSteps::bogus_so, crate::proofs::HandingSteps::not_bogus_so))]
fn is_bogus<V: Verifier>(judged: &JudgedGroup<V>) -> bool
    ensures { result ≡ is_found_bogus judged.now.finding }
{
    matches!(judged.state(), ValidationState::Bogus)
}
