//! Where an alias leads (RFC 1034 3.6.2, RFC 4035 2.4, 5.3.4, RFC 6672 2.2).

ghost use Rattle.std.specs.Prelude.{◌≡◌, IfOk};
ghost use Rattle.dsec_alias.specs.Following.{by_denying as denying_of, is_known as known, is_of_child as of_child, turn_to as turn_of};
ghost use Rattle.dsec_found.specs.Outcomes.{state_view};
ghost use Rattle.dsec_nodes.specs.Aliases.{candidate_of, denying_in};
ghost use Rattle.dsec_follow.specs.Replies.{reply_view};
ghost use Rattle.dsec_nsec3_calls.specs.Views.{hash_limits};
ghost use Rattle.dsec_follow.specs.Turns.{dname_by, turn_told, turn_view};

use crate::expansion::closest_encloser;
use crate::reply::Reply;
use dsec_cause::Cause;
use dsec_crypto::Verifier;
use dsec_found::JudgedGroup;
use dsec_group::{Memo, ValidationState, map_dname};
use dsec_name::{Name, NoMemory, PushNameError};
use dsec_nsec3_calls::{Conclusion, Used, closer_denied, map_maybe_secure};
use dsec_number::Rtype;
use std::alloc::Global;

/// What an alias comes to.
#[derive(Drop)]
pub(crate) enum Turn {
    /// The path goes on from a name, with a state, and by the groups of the denial beside the alias, if there is one.
    GoesTo(Name, ValidationState, Used),
    /// The path ends Bogus at a name, and why.
    FailsAt(Name, Cause),
}

/// What an alias of a name comes to, by its type and its target.
pub(crate) fn turn_to<V: Verifier>(
    alloc: Global,
    reply: &Reply<'_, V>,
    name: &Name,
    alias: &JudgedGroup<V>,
    target: Name,
    memo: &mut impl Memo<V>,
) -> Result<Turn, NoMemory>
    ensures { IfOk result (λ it. turn_view it ≡ turn_told (turn_of (reply_view reply.now) name.now (candidate_of alias.now) target)) }
{
    let encloser = closest_encloser(alloc, alias)?;
    if alias.group().rtype() == Rtype::DNAME {
        return dname_turn(alloc, name, alias, &target, encloser.is_some());
    }
    if is_of_child(reply, name, alias) {
        return Ok(Turn::FailsAt(copy_of(name)?, Cause::CnameFromApexForDs));
    }
    match encloser {
        Some(encloser) => by_denying::<V>(alloc, reply, name, alias, target, &encloser, memo),
        None => Ok(Turn::GoesTo(target, alias.state(), Used::none())),
    }
}

/// Whether DS is asked for, and an alias at the name is of the zone that begins there: the DS set stands in the zone above (RFC 4035 2.4).
fn is_of_child<V: Verifier>(reply: &Reply<'_, V>, name: &Name, alias: &JudgedGroup<V>) -> bool
    ensures { result ≡ of_child (reply_view reply.now) name.now (candidate_of alias.now) }
{
    reply.rtype == Rtype::DS && alias.is_signed_by(name) && is_known(alias.state())
}

/// Whether it is known which zone a group of this state is of.
fn is_known(state: ValidationState) -> bool
    ensures { result ≡ known (state_view state) }
{
    match state {
        ValidationState::Secure | ValidationState::Insecure => true,
        ValidationState::Bogus | ValidationState::Indeterminate => false,
    }
}

/// A DNAME record leads to what it maps the name to, unless it is an expansion of a wildcard.
fn dname_turn<V: Verifier>(
    alloc: Global,
    name: &Name,
    alias: &JudgedGroup<V>,
    target: &Name,
    is_expanded: bool,
) -> Result<Turn, NoMemory>
    ensures { IfOk result (λ it. turn_view it ≡ turn_told (dname_by name.now (candidate_of alias.now) target.now is_expanded)) }
{
    let owner = alias.group().owner();
    if is_expanded {
        return Ok(Turn::FailsAt(copy_of(owner)?, Cause::DnameFromWildcard));
    }
    match map_dname(alloc, owner, target, name) {
        Ok(mapped) => Ok(Turn::GoesTo(mapped, alias.state(), Used::none())),
        Err(PushNameError::PushNameError) => {
            Ok(Turn::FailsAt(copy_of(owner)?, Cause::DnameTooLong))
        }
        Err(PushNameError::NoMemory) => Err(NoMemory),
    }
}

/// A CNAME record that is an expansion of the wildcard under an encloser leads to its target where that the name exists is denied.
fn by_denying<V: Verifier>(
    alloc: Global,
    reply: &Reply<'_, V>,
    name: &Name,
    alias: &JudgedGroup<V>,
    target: Name,
    encloser: &Name,
    memo: &mut impl Memo<V>,
) -> Result<Turn, NoMemory>
    ensures { IfOk result (λ it. turn_view it ≡ turn_told
        (denying_of name.now (candidate_of alias.now).state target (denying_in (hash_limits reply.now.limits.now) reply.now.authorities.now reply.now.class name.now (candidate_of alias.now) encloser.now))) }
{
    let signer = alias.signer_name(alloc)?;
    let (groups, class, limits) = (reply.authorities, reply.class, reply.limits);
    match closer_denied::<V>(alloc, name, groups, class, &signer, encloser, limits, memo)? {
        Conclusion::Proved(used) => Ok(Turn::GoesTo(target, alias.state(), used)),
        Conclusion::LeftOpen(_, index) => {
            let state = map_maybe_secure(alias.state(), ValidationState::Insecure);
            Ok(Turn::GoesTo(target, state, Used::one(index)))
        }
        Conclusion::Unproved(cause) => Ok(Turn::FailsAt(copy_of(name)?, cause)),
    }
}

/// A copy of a name.
fn copy_of(name: &Name) -> Result<Name, NoMemory>
    ensures { IfOk result (λ copy. copy ≡ name.now) }
{
    Ok(name.clone()?)
}
