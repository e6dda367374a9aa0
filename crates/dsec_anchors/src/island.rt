//! The island of a name: the longest anchor at or above it (RFC 4033 2, RFC 4035 2.4).

ghost use Rattle.std.specs.Prelude.{◌≡◌};
ghost use Rattle.std.specs.Option.{option_map};
ghost use Rattle.dsec_spec.specs.Islands.{island, looked_for_at};
ghost use Rattle.dsec_spec.specs.Names.{is_below, place};
ghost use Rattle.dsec_anchors.specs.Anchors.{longer_name, told_island};

use dsec_name::Name;
use dsec_number::Rtype;
use dsec_wire::Record;

/// The owner of the longest anchor at or above where sets of the type are looked for, in the letters of the first of the anchors
/// there.
pub fn island_owner<'a>(anchors: &'a [Record], name: &Name, rtype: Rtype) -> Option<&'a Name>
    ensures island { option_map (λ owner. place owner.now) result ≡ island anchors.now (place name.now) rtype }
    ensures letters { option_map (λ owner. owner.now) result ≡ told_island anchors.now (place name.now) rtype }
{
    let mut best = None;
    let mut index = anchors.len();
    while index > 0 {
        index -= 1;
        let owner = anchors[index].owner();
        if is_over_sets(owner, name, rtype) {
            best = Some(longer(owner, best));
        }
    }
    best
}

/// Whether an owner is at or above where sets of the type are looked for: for DS strictly above the name, unless this is the root
/// (RFC 4035 2.4).
pub fn is_over_sets(owner: &Name, name: &Name, rtype: Rtype) -> bool
    ensures { result ≡ is_below (looked_for_at (place name.now) rtype) (place owner.now) }
{
    if rtype == Rtype::DS && !name.is_root() {
        owner.label_count() < name.label_count() && is_at_or_below(name, owner)
    } else {
        is_at_or_below(name, owner)
    }
}

/// Whether a name is another, or stands under it.
#[tactic(auto, using(dsec_spec::proofs::SignedTests::below_decides))]
fn is_at_or_below(name: &Name, base: &Name) -> bool
    ensures { result ≡ is_below (place name.now) (place base.now) }
{
    name.ends_with(base)
}

/// The longer of two names, the first where they are as long.
fn longer<'a>(name: &'a Name, other: Option<&'a Name>) -> &'a Name
    ensures { result.now ≡ longer_name name.now (option_map (λ other. other.now) other.entry) }
{
    match other {
        Some(other) => {
            if name.label_count() < other.label_count() {
                other
            } else {
                name
            }
        }
        None => name,
    }
}
