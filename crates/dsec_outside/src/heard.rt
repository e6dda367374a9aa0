//! An upstream that keeps what it has heard.

ghost use Rattle.std.specs.Prelude.{◌≡◌, ◌≤◌, ◌⊎◌, [], Some, IfOk, IsErrOf, map};
ghost use Rattle.dsec_spec.specs.Outside.{HasNoReply, IsReplyOf, Rose, risen};
ghost use Rattle.dsec_outside.specs.Faults.{CountsFailure};
ghost use Rattle.dsec_outside.specs.Hearing.{Notes, entry_of};

use crate::upstream::{AskError, Upstream};
use dsec_name::{Name, Octets};
use dsec_number::Rtype;
use std::alloc::{AllocError, Global};

/// A question that was asked, and its reply as it came; none where it failed.
#[derive(Drop)]
pub struct Heard {
    /// The name that was asked for, in the letters of the question.
    pub name: Name,
    /// The type that was asked for.
    pub rtype: Rtype,
    /// The octets of the reply.
    pub reply: Option<Octets>,
}

/// An upstream over another one, which keeps each question with its reply, in order: so its owner can tell by what a verdict came
/// about. It takes the memory of the replies once more. Where that is wanting it has no reply, and keeps none.
#[derive(Drop)]
pub struct HearingUpstream<U> {
    /// Who is asked.
    pub inner: U,
    /// What was heard, in the order in which it was asked.
    pub heard: Vec<Heard>,
    /// How many questions were asked: a count that stays at 2^64 - 1.
    pub asked: u64,
}

impl<U: Upstream> HearingUpstream<U> {
    /// An upstream over this one, which has heard nothing yet.
    pub fn new(alloc: Global, inner: U) -> Self
        ensures inner { result.inner ≡ inner }
        ensures heard { result.heard.items ≡ [] }
        ensures asked { result.asked ≡ 0 }
    {
        HearingUpstream {
            inner,
            heard: Vec::new(alloc),
            asked: 0,
        }
    }
}

impl<U: Upstream> Upstream for HearingUpstream<U> {
    ghost table = { λ upstream. U.table upstream.inner };

    ghost faults = { λ upstream. U.faults upstream.inner };

    ghost asked = { λ upstream. upstream.asked };

    ghost heard = { λ upstream. Some (map entry_of upstream.heard.items) };

    fn ask(&mut self, alloc: Global, name: &Name, rtype: Rtype) -> Result<Vec<u8>, AskError>
        ensures same_table { U.table self.new.inner ≡ U.table self.old.inner }
        ensures reply { IfOk result (λ reply. IsReplyOf (U.table self.old.inner) name.now rtype reply.items) }
        ensures no_reply { IsErrOf result AskError.Failed → HasNoReply (U.table self.old.inner) name.now rtype }
        ensures later { U.faults self.old.inner ≤ U.faults self.new.inner }
        ensures failed { IsErrOf result AskError.Failed → Rose (U.faults self.old.inner) (U.faults self.new.inner) }
        ensures counts { CountsFailure (U.faults self.old.inner) (U.faults self.new.inner) result }
        ensures counted { self.new.asked ≡ risen self.old.asked }
        ensures noted { Notes (Some (map entry_of self.old.heard.items)) (Some (map entry_of self.new.heard.items)) name.now rtype result }
        ensures inner_asked { IsErrOf result AskError.NoMemory ⊎ (U.asked self.new.inner ≡ risen (U.asked self.old.inner)) }
        ensures inner_once { (U.asked self.new.inner ≡ U.asked self.old.inner) ⊎ (U.asked self.new.inner ≡ risen (U.asked self.old.inner)) }
        ensures inner_noted { IsErrOf result AskError.NoMemory ⊎ Notes (U.heard self.old.inner) (U.heard self.new.inner) name.now rtype result }
    {
        self.asked = self.asked.saturating_add(1);
        let name_heard = name_copy(name)?;
        // There is room before the question is asked, so that no failure is told as want of memory.
        self.heard.reserve(1)?;
        let reply = match self.inner.ask(alloc, name, rtype) {
            Ok(reply) => reply,
            Err(AskError::Failed) => {
                self.heard.push_reserved(Heard {
                    name: name_heard,
                    rtype,
                    reply: None,
                });
                return Err(AskError::Failed);
            }
            Err(AskError::NoMemory) => return Err(AskError::NoMemory),
        };
        let copy = octets_copy(alloc, &reply)?;
        self.heard.push_reserved(Heard {
            name: name_heard,
            rtype,
            reply: Some(copy),
        });
        Ok(reply)
    }
}

/// A copy of a name.
fn name_copy(name: &Name) -> Result<Name, AllocError>
    ensures { IfOk result (λ copy. copy ≡ name.now) }
{
    name.clone()
}

/// A copy of octets.
fn octets_copy(alloc: Global, octets: &[u8]) -> Result<Octets, AllocError>
    ensures { IfOk result (λ copy. copy ≡ octets.now) }
{
    Ok(Octets::new(octets.to_vec(alloc)?))
}
