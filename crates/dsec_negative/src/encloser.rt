//! The closest encloser of a missing name, and the wildcard under it (RFC 4592 2.1.1, 3.3.1).

ghost use Rattle.std.specs.Prelude.{◌≡◌, [], ◌∷◌, IfOk};
ghost use Rattle.dsec_absence.specs.Answers.{star_closest_encloser as star_of};
ghost use Rattle.dsec_absence.specs.Tests.{common, longer};
ghost use Rattle.dsec_group.specs.Mappings.{or_push_error};
ghost use Rattle.dsec_name.specs.JoinedNames.{name_or_long, needs_memory};
ghost use Rattle.dsec_spec.specs.Names.{Labels, Place, asterisk, place};
ghost use Rattle.dsec_spec.specs.Reading.{Gives};
ghost use Rattle.dsec_spec.specs.SignedBytes.{rightmost};

use dsec_chain::is_below;
use dsec_name::{Name, NoMemory, PushNameError};
use std::alloc::Global;

/// How many labels the longest name has, the root's not counted, that the target is, or is under, and one of the two others is, or
/// is under.
pub(crate) fn encloser_labels(
    alloc: Global,
    target: &Name,
    owner: &Name,
    next: &Name,
) -> Result<usize, NoMemory>
    ensures { IfOk result (λ labels. place (rightmost labels target.now) ≡ longer (common (place target.now) (place owner.now)) (common (place target.now) (place next.now))) }
{
    let mut labels = target.label_count() - 1;
    while labels > 0 {
        let name = target.ancestor(alloc, labels)?;
        if is_below(owner, &name) || is_below(next, &name) {
            return Ok(labels);
        }
        labels -= 1;
    }
    Ok(0)
}

/// The wildcard under a closest encloser; `PushNameError` where it has more than 255 octets.
pub fn star_closest_encloser(alloc: Global, closest_encloser: &Name) -> Result<Name, PushNameError>
    ensures exact { Gives {Y = Labels} needs_memory (λ name. name) result (name_or_long (asterisk ∷ closest_encloser.now)) }
    ensures place { Gives {Y = Place} needs_memory (λ name. place name) result (or_push_error (star_of (place closest_encloser.now))) }
{
    let star = star(alloc)?;
    star.front_onto(alloc, 1, closest_encloser)
}

/// The wildcard under the root.
fn star(alloc: Global) -> Result<Name, NoMemory>
    ensures { IfOk result (λ name. name ≡ asterisk ∷ []) }
{
    match Name::from_wire(alloc, &[1, b'*', 0]) {
        Ok(name) => Ok(name),
        Err(_) => Err(NoMemory),
    }
}
