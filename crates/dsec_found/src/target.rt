//! From which anchor a group is judged, and which zone is to have signed it (RFC 4033 2, RFC 4035 5.3.1).

ghost use Rattle.std.specs.Prelude.{◌≡◌, IfOk, IfSome, find};
ghost use Rattle.std.specs.Option.{option_map};
ghost use Rattle.dsec_anchors.specs.Anchors.{told_island};
ghost use Rattle.dsec_name.specs.NameRefs.{name_view};
ghost use Rattle.dsec_nodes.specs.Judging.{target_of as target_in};
ghost use Rattle.dsec_spec.specs.Islands.{is_usable as usable, island};
ghost use Rattle.dsec_spec.specs.Names.{IsAtOrBelow, place};
ghost use Rattle.dsec_spec.specs.Numbers.{RRSIG};
ghost use Rattle.dsec_spec.specs.Records.{rrsig_of};
ghost use Rattle.dsec_found.specs.Letters.{told_among, told_signers, told_zone};

use crate::island::{copy_of, is_above_island, is_below, looked_for};
use dsec_anchors::island_owner;
use dsec_group::Group;
use dsec_name::{Name, NameRef, NoMemory};
use dsec_wire::Record;
use std::alloc::Global;

/// Where a chain to a group leads from and to.
#[derive(Drop)]
pub struct Target {
    /// The group's island: the owner of the longest anchor at or above where the group is looked for, in the letters of the first
    /// of the anchors there; none where no anchor stands there.
    pub top: Option<Name>,
    /// The zone that is to have signed the group.
    pub zone: Name,
}

/// The island of a group among these anchors, and the zone that is to have signed it: the signer of its first signature that can
/// be the group's, or else where the group is looked for. Each name is told in the letters in which it came: those of the first anchor
/// there, of that signature, or of the group's owner.
pub fn target_of(alloc: Global, anchors: &[Record], group: &Group) -> Result<Target, NoMemory>
    ensures island { IfOk result (λ it. option_map (λ top. place top) it.top ≡ island anchors.now (place group.now.owner) group.now.rtype) }
    ensures zone { IfOk result (λ it. place it.zone ≡ target_in group.now (island anchors.now (place group.now.owner) group.now.rtype)) }
    ensures letters { IfOk result (λ it. it.zone ≡ told_zone group.now (island anchors.now (place group.now.owner) group.now.rtype)) }
    ensures island_letters { IfOk result (λ it. it.top ≡ told_island anchors.now (place group.now.owner) group.now.rtype) }
    ensures below { IfOk result (λ it. IfSome it.top (λ top. IsAtOrBelow (place it.zone) (place top))) }
{
    let owner = island_owner(anchors, group.owner(), group.rtype());
    let from = looked_for(group.owner(), group.rtype())?;
    let zone = zone_of(alloc, group, from, owner)?;
    let top = copied(owner)?;
    Ok(Target { top, zone })
}

/// A copy of a name, where there is one.
fn copied(name: Option<&Name>) -> Result<Option<Name>, NoMemory>
    ensures place { IfOk result (λ copy. option_map (λ copy. place copy) copy ≡ option_map (λ name. place name.now) name.entry) }
    ensures letters { IfOk result (λ copy. copy ≡ option_map (λ name. name.now) name.entry) }
{
    match name {
        Some(name) => Ok(Some(copy_of(name)?)),
        None => Ok(None),
    }
}

/// The zone that is to have signed a group that is looked for at a name.
fn zone_of(alloc: Global, group: &Group, from: Name, top: Option<&Name>) -> Result<Name, NoMemory>
    ensures { IfOk result (λ zone. zone ≡ told_among (option_map (λ top. place top.now) top.entry) from (told_signers group.now)) }
{
    match usable_signer(alloc, group, &from, top)? {
        Some(signer) => Ok(signer),
        None => Ok(from),
    }
}

/// The signer of a group's first signature that can be the group's, as that writes it.
fn usable_signer(
    alloc: Global,
    group: &Group,
    from: &Name,
    top: Option<&Name>,
) -> Result<Option<Name>, NoMemory>
    ensures { IfOk result (λ found. found
        ≡ find (λ signer. usable (option_map (λ top. place top.now) top.entry) (place from.now) (place signer)) (told_signers group.now)) }
{
    let signatures = group.sig_set();
    for index in 0..signatures.len() {
        let Some(signer) = signer_of(&signatures[index]) else {
            continue;
        };
        let signer = signer.to_name(alloc)?;
        if is_usable(&signer, from, top) {
            return Ok(Some(signer));
        }
    }
    Ok(None)
}

/// The signer that a signature names.
fn signer_of(signature: &Record) -> Option<NameRef<'_>>
    requires { signature.now.rtype ≡ RRSIG }
    ensures { option_map name_view result ≡ option_map (λ sig. sig.signer) (rrsig_of signature.now.rdata) }
{
    match signature.rdata().rrsig() {
        Some(rrsig) => Some(rrsig.signer_name),
        None => None,
    }
}

/// Whether a signature with this signer can be that of a group that is looked for at a name.
fn is_usable(signer: &Name, from: &Name, top: Option<&Name>) -> bool
    ensures { result ≡ usable (option_map (λ top. place top.now) top.entry) (place from.now) (place signer.now) }
{
    is_below(from, signer) && !is_above_island(top, signer)
}
