//! Where a set is looked for, and which names stand below others (RFC 4035 2.4).

ghost use Rattle.std.specs.Prelude.{◌≡◌, IfOk};
ghost use Rattle.std.specs.Option.{option_map};
ghost use Rattle.dsec_spec.specs.Islands.{is_above};
ghost use Rattle.dsec_spec.specs.Names.{is_below as below, is_strictly_below as strictly_below, place};
ghost use Rattle.dsec_found.specs.Letters.{told_looked_for};

use dsec_name::{Name, NoMemory};
use dsec_number::Rtype;

/// The name at which a set of this type is looked for, in the letters of its owner: a DS set stands in the zone above, but the root's.
pub(crate) fn looked_for(name: &Name, rtype: Rtype) -> Result<Name, NoMemory>
    ensures { IfOk result (λ from. from ≡ told_looked_for name.now rtype) }
{
    if rtype != Rtype::DS {
        return copy_of(name);
    }
    match name.parent()? {
        Some(parent) => Ok(parent),
        None => copy_of(name),
    }
}

/// A copy of a name.
pub(crate) fn copy_of(name: &Name) -> Result<Name, NoMemory>
    ensures { IfOk result (λ copy. copy ≡ name.now) }
{
    Ok(name.clone()?)
}

/// Whether a name is another, or stands under it.
#[tactic(auto, using(dsec_spec::proofs::SignedTests::below_decides))]
pub(crate) fn is_below(name: &Name, base: &Name) -> bool
    ensures { result ≡ below (place name.now) (place base.now) }
{
    name.ends_with(base)
}

/// Whether a name is under another, and not that one.
fn is_strictly_below(name: &Name, base: &Name) -> bool
    ensures { result ≡ strictly_below (place name.now) (place base.now) }
{
    is_below(name, base) && base.label_count() < name.label_count()
}

/// Whether a name is strictly above an island, where there is one.
pub fn is_above_island(top: Option<&Name>, name: &Name) -> bool
    ensures { result ≡ is_above (option_map (λ top. place top.now) top.entry) (place name.now) }
{
    match top {
        Some(top) => is_strictly_below(top, name),
        None => false,
    }
}
