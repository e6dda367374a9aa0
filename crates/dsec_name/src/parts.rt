//! Names made of labels of other names.

ghost use Rattle.std.specs.Prelude.{◌≡◌, ◌++◌, IfOk, drop, take};
ghost use Rattle.dsec_spec.specs.Names.{Labels};
ghost use Rattle.dsec_spec.specs.Reading.{Gives};
ghost use Rattle.dsec_spec.specs.SignedBytes.{rightmost};
ghost use Rattle.dsec_name.specs.Keys.{IsWhole, labels_octets, labels_of};
ghost use Rattle.dsec_name.specs.JoinedNames.{name_or_long, needs_memory};

use crate::error::NoMemory;
use crate::name::{MAX_NAME, Name};
use crate::push_name::PushNameError;
use std::alloc::Global;

impl Name {
    /// The name of so many of the last labels, the root's not counted; the name itself where it has no more.
    pub fn ancestor(&self, alloc: Global, labels: usize) -> Result<Name, NoMemory>
        ensures { IfOk result (λ name. name ≡ rightmost labels self.now) }
    {
        let before = (self.label_count() - 1).saturating_sub(labels);
        let rest = after_labels(self.octets(), before);
        Ok(Name::keep(Vec::from_slice(alloc, rest)?))
    }

    /// The name of so many of the first labels, and then those of `base`.
    pub fn front_onto(
        &self,
        alloc: Global,
        labels: usize,
        base: &Name,
    ) -> Result<Name, PushNameError>
        ensures { Gives {Y = Labels} needs_memory (λ name. name) result (name_or_long (take labels self.now ++ base.now)) }
    {
        let octets = self.octets();
        let front = &octets[..octets.len() - after_labels(octets, labels).len()];
        let end = base.octets();
        if front.len() + end.len() >= MAX_NAME {
            return Err(PushNameError::PushNameError);
        }
        let mut joined = Vec::with_capacity(alloc, front.len() + end.len())?;
        joined.extend_from_slice(front)?;
        joined.extend_from_slice(end)?;
        Ok(Name::keep(joined))
    }
}

/// The octets after so many of the first labels; none where there are no more.
fn after_labels(octets: &[u8], labels: usize) -> &[u8]
    requires { IsWhole octets.now }
    ensures { result.now ≡ labels_octets (drop labels (labels_of octets.now)) }
{
    let mut rest = octets;
    for _ in 0..labels {
        let Some((&size, after)) = rest.split_first() else {
            return rest;
        };
        let (_, next) = after.split_at(usize::from(size).min(after.len()));
        rest = next;
    }
    rest
}
