//! Names on the way to a name.

ghost use Rattle.std.specs.Prelude.{◌≡◌, IfOk, length, take};
ghost use Rattle.dsec_spec.specs.Names.{place};

use dsec_name::{Name, NoMemory};
use std::alloc::Global;

/// How many labels a name has, without the root's.
#[tactic(auto, using(dsec_spec::proofs::PlaceLemmas::length_of_place))]
pub(crate) fn labels(name: &Name) -> usize
    ensures { result ≡ length (place name.now) }
{
    name.label_count() - 1
}

/// The name of so many of the labels next to the root.
#[tactic(auto, using(dsec_spec::proofs::PlaceLemmas::front_of_place))]
pub(crate) fn front(alloc: Global, name: &Name, labels: usize) -> Result<Name, NoMemory>
    ensures { IfOk result (λ above. place above ≡ take labels (place name.now)) }
{
    name.ancestor(alloc, labels)
}
