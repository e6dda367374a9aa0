//! A path of aliases, step by step (RFC 1034 3.6.2, RFC 6672 3.1).

ghost use Rattle.std.specs.Prelude.{◌≡◌, None, IfOk};
ghost use Rattle.dsec_alias.specs.Following.{do_cname_dname as end_of};
ghost use Rattle.dsec_found.specs.Outcomes.{state_view};
ghost use Rattle.dsec_follow.specs.Ends.{end_told};
ghost use Rattle.dsec_nodes.specs.Aliases.{reply_of};
ghost use Rattle.dsec_follow.specs.Replies.{reply_view};
ghost use Rattle.dsec_nsec3_calls.specs.Views.{hash_limits};
ghost use Rattle.dsec_follow.specs.Ways.{ProgressIs, StepsOnto, way_view};

use crate::end::{AliasEnd, AliasStep, AliasSteps};
use crate::next::{next_alias, only_target};
use crate::reply::Reply;
use crate::turn::{Turn, turn_to};
use dsec_cause::Cause;
use dsec_crypto::Verifier;
use dsec_found::JudgedGroup;
use dsec_group::{Limits, Memo, ValidationState};
use dsec_name::{Name, NoMemory};
use dsec_nsec3_calls::{Used, map_maybe_secure};
use dsec_number::{Class, Rtype};
use dsec_wire::Record;
use std::alloc::Global;

/// A path so far: the name that it reached, the state of its aliases, its steps, and how many more it may have.
#[derive(Drop)]
pub(crate) struct Way {
    pub(crate) name: Name,
    pub(crate) state: ValidationState,
    pub(crate) steps: AliasSteps,
    pub(crate) left: u8,
}

/// What a path comes to by its next alias.
#[derive(Drop)]
pub(crate) enum Progress {
    /// It goes on.
    Goes(Way),
    /// It ends.
    Ends(AliasEnd),
}

/// Follows the CNAME and DNAME records of a reply from a name to the last, where CNAME isn't asked for, in so many steps at most: the
/// name where it ends, the state of the aliases, and the steps; or why it is Bogus. Records of a class other than the one asked for,
/// sets of several records, and DNAME records above the island of the name aren't followed.
#[tactic(auto, using(crate::proofs::WaySteps::whole_end))]
pub fn do_cname_dname<V: Verifier>(
    alloc: Global,
    name: &Name,
    class: Class,
    rtype: Rtype,
    answers: &[JudgedGroup<V>],
    authorities: &[JudgedGroup<V>],
    anchors: &[Record],
    limits: &Limits,
    memo: &mut impl Memo<V>,
) -> Result<AliasEnd, NoMemory>
    ensures { IfOk result (λ end. end ≡ end_told (end_of (reply_of (hash_limits limits.now) anchors.now class rtype answers.now authorities.now) limits.now.max_cname_dname name.now)) }
{
    let reply = Reply {
        anchors,
        class,
        rtype,
        answers,
        authorities,
        limits,
    };
    let mut way = Way {
        name: name.clone()?,
        state: ValidationState::Secure,
        steps: Vec::new(alloc),
        left: limits.max_cname_dname,
    };
    loop {
        match way.advance::<V>(alloc, &reply, memo)? {
            Progress::Goes(next) => way = next,
            Progress::Ends(end) => return Ok(end),
        }
    }
}

impl Way {
    /// What the path comes to by its next alias; without one it ends.
    fn advance<V: Verifier>(
        self,
        alloc: Global,
        reply: &Reply<'_, V>,
        memo: &mut impl Memo<V>,
    ) -> Result<Progress, NoMemory>
        ensures { IfOk result (ProgressIs (reply_view reply.now) (way_view self)) }
    {
        let Some(index) = next_alias(reply, &self.name) else {
            return Ok(Progress::Ends(self.ends()));
        };
        let alias = &reply.answers[index];
        let Some(target) = only_target(alias.group()) else {
            return Ok(Progress::Ends(self.ends()));
        };
        let target = target.to_name(alloc)?;
        match turn_to::<V>(alloc, reply, &self.name, alias, target, memo)? {
            Turn::GoesTo(target, state, used) => self.onto(alloc, index, target, state, used),
            Turn::FailsAt(reached, cause) => {
                Ok(Progress::Ends(AliasEnd::bogus(alloc, reached, cause)))
            }
        }
    }

    /// The end of the path here.
    fn ends(self) -> AliasEnd
        ensures { result ≡ record { name = self.name; state = state_view self.state; cause = None; steps = self.steps.items } }
    {
        AliasEnd::at(self.name, self.state, self.steps)
    }

    /// The path after a step by the alias at an index; where it may have none more, it is Bogus.
    fn onto(
        self,
        alloc: Global,
        index: usize,
        target: Name,
        state: ValidationState,
        used: Used,
    ) -> Result<Progress, NoMemory>
        ensures { IfOk result (StepsOnto (way_view self) index target (state_view state) used) }
    {
        if self.left == 0 {
            return Ok(Progress::Ends(AliasEnd::bogus(alloc, target, Cause::TooManyAliases)));
        }
        let mut steps = self.steps;
        steps.push(AliasStep::new(index, used))?;
        Ok(Progress::Goes(Way {
            name: target,
            state: map_maybe_secure(state, self.state),
            steps,
            left: self.left - 1,
        }))
    }
}
