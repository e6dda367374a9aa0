//! DNAME records, and the CNAME records that servers make for them (RFC 6672 2.2, 3.1).

ghost use Rattle.std.specs.Prelude.{◌≡◌, IfOk, IfSome};
ghost use Rattle.std.specs.Option.{option_map};
ghost use Rattle.dsec_spec.specs.Names.{Labels, is_below as below, is_strictly_below as strictly_below, place};
ghost use Rattle.dsec_spec.specs.Numbers.{CNAME, DNAME};
ghost use Rattle.dsec_spec.specs.Reading.{Gives};
ghost use Rattle.dsec_spec.specs.Redirection.{bare_alias as bare_alias_of, followed as followed_of, followed_from, group_says as group_says_of, map_dname as map_dname_of, mapping as mapping_of, mapping_to, stands_between as stands_between_of};
ghost use Rattle.dsec_name.specs.JoinedNames.{needs_memory};
ghost use Rattle.dsec_name.specs.NameRefs.{name_view};
ghost use Rattle.dsec_group.specs.Mappings.{mapping_view, may_speak as may_speak_of, or_push_error};

use crate::group::Group;
use dsec_name::{Name, NameRef, NoMemory, PushNameError};
use dsec_number::Rtype;
use dsec_wire::Record;
use std::alloc::Global;

/// The name that a DNAME at `owner` maps a name below the owner to: its labels before the owner's, and then the target's;
/// `PushNameError` where that has more than 255 octets (RFC 6672 2.2).
pub fn map_dname(
    alloc: Global,
    owner: &Name,
    target: &Name,
    name: &Name,
) -> Result<Name, PushNameError>
    ensures { Gives {Y = Labels} needs_memory (λ mapped. mapped) result (or_push_error (map_dname_of owner.now target.now name.now)) }
{
    let before = name.label_count().saturating_sub(owner.label_count());
    name.front_onto(alloc, before, target)
}

/// What a DNAME record says of a CNAME record.
#[derive(Clone, Copy)]
pub(crate) enum Mapping {
    /// Nothing: it doesn't map its owner, or to another name than its target.
    Silent,
    /// It maps its owner to its target.
    Agrees,
    /// It maps its owner to more than 255 octets.
    TooLong,
}

/// What a DNAME record says of a CNAME record.
fn one_says(alloc: Global, cname: &Record, dname: &Record) -> Result<Mapping, NoMemory>
    requires alias { cname.now.rtype ≡ CNAME }
    requires redirects { dname.now.rtype ≡ DNAME }
    ensures { IfOk result (λ said. mapping_view said ≡ mapping_of cname.now dname.now) }
{
    let Some(to) = dname.rdata().dname() else {
        return Ok(Mapping::Silent);
    };
    let Some(alias) = cname.rdata().cname() else {
        return Ok(Mapping::Silent);
    };
    let (owner, name) = (dname.owner(), cname.owner());
    if !is_strictly_below(name, owner) {
        return Ok(Mapping::Silent);
    }
    compared(alloc, owner, &to.dname, name, &alias.cname)
}

/// Whether the name that a DNAME maps a name to is the alias's target.
fn compared(
    alloc: Global,
    owner: &Name,
    to: &NameRef<'_>,
    name: &Name,
    target: &NameRef<'_>,
) -> Result<Mapping, NoMemory>
    ensures { IfOk result (λ said. mapping_view said ≡ mapping_to (map_dname_of owner.now (name_view to.now) name.now) (name_view target.now)) }
{
    let to = to.to_name(alloc)?;
    match map_dname(alloc, owner, &to, name) {
        Ok(mapped) => {
            if target.is(&mapped) {
                return Ok(Mapping::Agrees);
            }
            Ok(Mapping::Silent)
        }
        Err(PushNameError::PushNameError) => Ok(Mapping::TooLong),
        Err(PushNameError::NoMemory) => Err(NoMemory),
    }
}

/// Whether a name is another, or stands under it.
#[tactic(auto, using(dsec_spec::proofs::SignedTests::below_decides))]
fn is_below(name: &Name, base: &Name) -> bool
    ensures { result ≡ below (place name.now) (place base.now) }
{
    name.ends_with(base)
}

/// Whether a name stands under another, and isn't it.
fn is_strictly_below(name: &Name, base: &Name) -> bool
    ensures { result ≡ strictly_below (place name.now) (place base.now) }
{
    is_below(name, base) && base.label_count() < name.label_count()
}

/// Whether an anchor stands at or above a name, and strictly below one above it.
fn stands_between(anchors: &[Record], name: &Name, above: &Name) -> bool
    ensures { result ≡ stands_between_of anchors.now (place name.now) (place above.now) }
{
    anchors.iter().any(|anchor| is_below(name, anchor.owner())
        && is_strictly_below(anchor.owner(), above))
}

/// Whether a group may speak of a CNAME record: it is of DNAME records of its class, and no anchor stands between.
fn may_speak(anchors: &[Record], cname: &Record, group: &Group) -> bool
    ensures { result ≡ may_speak_of anchors.now cname.now group.now }
{
    group.rtype() == Rtype::DNAME
        && group.class() == cname.class()
        && !stands_between(anchors, cname.owner(), group.owner())
}

/// What a group says of a CNAME record: the first of its DNAME records that isn't silent speaks for it.
fn group_says(
    alloc: Global,
    anchors: &[Record],
    cname: &Record,
    group: &Group,
) -> Result<Mapping, NoMemory>
    requires { cname.now.rtype ≡ CNAME }
    ensures { IfOk result (λ said. mapping_view said ≡ group_says_of anchors.now cname.now group.now) }
{
    if !may_speak(anchors, cname, group) {
        return Ok(Mapping::Silent);
    }
    let records = group.rr_set();
    for dname in records {
        match one_says(alloc, cname, dname)? {
            Mapping::Silent => {}
            Mapping::Agrees => return Ok(Mapping::Agrees),
            Mapping::TooLong => return Ok(Mapping::TooLong),
        }
    }
    Ok(Mapping::Silent)
}

/// The index of the group that a CNAME record follows from.
fn followed_index(
    alloc: Global,
    anchors: &[Record],
    cname: &Record,
    groups: &[Group],
) -> Result<Option<usize>, NoMemory>
    requires { cname.now.rtype ≡ CNAME }
    ensures { IfOk result (λ index. index ≡ followed_from anchors.now cname.now 0 groups.now) }
{
    for index in 0..groups.len() {
        match group_says(alloc, anchors, cname, &groups[index])? {
            Mapping::Silent => {}
            Mapping::Agrees => return Ok(Some(index)),
            Mapping::TooLong => return Ok(None),
        }
    }
    Ok(None)
}

/// The record of a bare alias, which is a group of one CNAME record without a signature.
pub(crate) fn bare_alias(group: &Group) -> Option<&Record>
    ensures alias { option_map (λ cname. cname.now) result ≡ bare_alias_of group.now }
    ensures typed { IfSome result (λ cname. cname.now.rtype ≡ CNAME) }
{
    if group.rtype() != Rtype::CNAME || group.sig_set_len() != 0 {
        return None;
    }
    match group.rr_set() {
        [cname] => Some(cname),
        _ => None,
    }
}

/// The index of the group that a group follows from, where it is a bare alias.
pub(crate) fn followed(
    alloc: Global,
    anchors: &[Record],
    groups: &[Group],
    group: &Group,
) -> Result<Option<usize>, NoMemory>
    ensures { IfOk result (λ index. index ≡ followed_of anchors.now groups.now group.now) }
{
    match bare_alias(group) {
        Some(cname) => followed_index(alloc, anchors, cname, groups),
        None => Ok(None),
    }
}
