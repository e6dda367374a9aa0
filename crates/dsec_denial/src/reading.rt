//! What an NSEC record says of a name, before its signatures are tried (RFC 4034 4, RFC 6840 4.4).

ghost use Rattle.std.specs.Prelude.{◌≡◌, List, ℕ, IfOk, true};
ghost use Rattle.std.specs.Option.{option_map};
ghost use Rattle.dsec_denial.specs.Reading.{bears, by_reading, only, shows_empty as shows};
ghost use Rattle.dsec_nodes.specs.MissingDs.{by_group};
ghost use Rattle.dsec_nodes.specs.Nodes.{Node};
ghost use Rattle.dsec_nodes.specs.Signing.{under_keys};
ghost use Rattle.dsec_nodes.specs.World.{World};
ghost use Rattle.dsec_spec.specs.Names.{place};
ghost use Rattle.dsec_spec.specs.Numbers.{NSEC};
ghost use Rattle.dsec_wire.specs.DataViews.{nsec_view};

use crate::range::nsec_in_range;
use dsec_cause::Cause;
use dsec_chain::{is_below, is_same, is_strictly_below};
use dsec_group::Group;
use dsec_name::{Name, NoMemory};
use dsec_number::{Class, Rtype};
use dsec_wire::Nsec;
use std::alloc::Global;

/// Where a group's NSEC record stands to a name.
#[derive(Clone, Copy)]
pub(crate) enum Reading<'a> {
    /// It says nothing of the name, and why, where it is an NSEC record of class IN.
    Nothing(Option<Cause>),
    /// It stands at the name.
    At(Nsec<'a>),
    /// It stands strictly above the name, and whether its next name shows that the name is an empty non-terminal.
    Above(Nsec<'a>, bool),
    /// It stands elsewhere, and its next name shows that the name is an empty non-terminal.
    Around,
}

/// Where a group's NSEC record stands to a name.
pub(crate) fn read<'a>(
    alloc: Global,
    group: &'a Group,
    name: &Name,
) -> Result<Reading<'a>, NoMemory>
    ensures reading { IfOk result (λ reading. (w : World) (zone : Node) (keys : List (List ℕ))
        → by_reading w zone keys (place name.now) group.now (under_keys w zone.signer keys group.now) reading ≡ by_group w zone keys (place name.now) group.now) }
    ensures typed { IfOk result (λ reading. bears reading ≡ true → group.now.rtype ≡ NSEC) }
{
    if group.rtype() != Rtype::NSEC || group.class() != Class::IN {
        return Ok(Reading::Nothing(None));
    }
    let Some(nsec) = only_nsec(group) else {
        return Ok(Reading::Nothing(Some(Cause::NsecNotUsable)));
    };
    let owner = group.owner();
    if is_same(owner, name) {
        return Ok(Reading::At(nsec));
    }
    let is_empty = shows_empty(alloc, owner, &nsec, name)?;
    if is_strictly_below(name, owner) {
        Ok(Reading::Above(nsec, is_empty))
    } else if is_empty {
        Ok(Reading::Around)
    } else {
        Ok(Reading::Nothing(Some(Cause::NsecNotUsable)))
    }
}

/// What the group's record says, where it is the only one.
fn only_nsec(group: &Group) -> Option<Nsec<'_>>
    requires { group.now.rtype ≡ NSEC }
    ensures { option_map nsec_view result ≡ only group.now.records }
{
    match group.rr_set() {
        [one] => one.rdata().nsec(),
        _ => None,
    }
}

/// Whether a record's next name shows that the name is an empty non-terminal: the record covers the name, and its next name
/// is under it (RFC 4592 2.2.2).
fn shows_empty(alloc: Global, owner: &Name, nsec: &Nsec<'_>, name: &Name) -> Result<bool, NoMemory>
    ensures { IfOk result (λ yes. yes ≡ shows (place owner.now) (nsec_view nsec.now) (place name.now)) }
{
    let next = nsec.next_name.to_name(alloc)?;
    Ok(nsec_in_range(name, owner, &next) && is_below(&next, name))
}
