//! Which names stand over a group (RFC 4035 2.4).

ghost use Rattle.std.specs.Prelude.{◌≡◌, ◌==◌, ◌&&◌, []};
ghost use Rattle.std.proofs.Math.Bool.{not};
ghost use Rattle.dsec_spec.specs.Islands.{looked_for_at};
ghost use Rattle.dsec_spec.specs.Names.{is_below as below, is_strictly_below as strictly_below, place, same_place};
ghost use Rattle.dsec_spec.specs.Numbers.{DS};

use dsec_group::Group;
use dsec_name::Name;
use dsec_number::Rtype;

/// Whether a name is at or above where a group is looked for: strictly above a DS set's owner, but the root's.
pub(crate) fn stands_over(name: &Name, group: &Group) -> bool
    ensures { result ≡ below (looked_for_at (place group.now.owner) group.now.rtype) (place name.now) }
{
    if is_ds_below_root(group) {
        is_strictly_below(group.owner(), name)
    } else {
        is_below(group.owner(), name)
    }
}

/// Whether a group is a DS set, and not the root's: it stands in the zone above.
fn is_ds_below_root(group: &Group) -> bool
    ensures { result ≡ ((group.now.rtype == DS) && not (same_place (place group.now.owner) [])) }
{
    group.rtype() == Rtype::DS && !is_root(group.owner())
}

/// Whether a name is the root's.
#[tactic(auto, using(crate::proofs::DsLaws::root_test))]
fn is_root(name: &Name) -> bool
    ensures { result ≡ same_place (place name.now) [] }
{
    name.label_count() == 1
}

/// Whether a name is under another, and not that one.
fn is_strictly_below(name: &Name, base: &Name) -> bool
    ensures { result ≡ strictly_below (place name.now) (place base.now) }
{
    is_below(name, base) && base.label_count() < name.label_count()
}

/// Whether a name is another, or stands under it.
#[tactic(auto, using(dsec_spec::proofs::SignedTests::below_decides))]
fn is_below(name: &Name, base: &Name) -> bool
    ensures { result ≡ below (place name.now) (place base.now) }
{
    name.ends_with(base)
}
