//! Upstreams in memory: one over a table, one that never fails, and one whose calls of given numbers fail.

ghost use Rattle.std.specs.Prelude.{◌≡◌, ◌≤◌, ◌⊎◌, None, Some, Contains, IfOk, IsErrOf};
ghost use Rattle.dsec_spec.specs.Outside.{HasNoReply, IsReplyOf, Rose, asked_of, risen};
ghost use Rattle.dsec_outside.specs.Faults.{CountsFailure};
ghost use Rattle.dsec_outside.specs.Hearing.{Notes};

use crate::replies::Replies;
use crate::upstream::{AskError, Upstream};
use dsec_name::Name;
use dsec_number::Rtype;
use std::alloc::Global;

/// An upstream that answers from a table: a question without an answer fails.
#[derive(Drop)]
pub struct TableUpstream {
    /// The answers.
    pub replies: Replies,
    /// How many questions were asked: a count that stays at 2^64 - 1.
    pub asked: u64,
    /// How many of them failed: a count that stays at 2^64 - 1.
    pub faults: u64,
}

impl TableUpstream {
    /// An upstream with these answers, which nobody has asked.
    pub fn new(replies: Replies) -> Self
        ensures replies { result.replies ≡ replies }
        ensures asked { result.asked ≡ 0 }
        ensures faultless { result.faults ≡ 0 }
    {
        TableUpstream {
            replies,
            asked: 0,
            faults: 0,
        }
    }
}

impl Upstream for TableUpstream {
    ghost table = { λ upstream. Some upstream.replies };

    ghost faults = { λ upstream. upstream.faults };

    ghost asked = { λ upstream. upstream.asked };

    ghost heard = { λ _. None };

    fn ask(&mut self, alloc: Global, name: &Name, rtype: Rtype) -> Result<Vec<u8>, AskError>
        ensures told { asked_of self.old.replies name.now rtype ≡ None → IsErrOf result AskError.Failed }
        ensures same_table { Some self.new.replies ≡ Some self.old.replies }
        ensures reply { IfOk result (λ reply. IsReplyOf (Some self.old.replies) name.now rtype reply.items) }
        ensures no_reply { IsErrOf result AskError.Failed → HasNoReply (Some self.old.replies) name.now rtype }
        ensures later { self.old.faults ≤ self.new.faults }
        ensures failed { IsErrOf result AskError.Failed → Rose self.old.faults self.new.faults }
        ensures counts { CountsFailure self.old.faults self.new.faults result }
        ensures counted { self.new.asked ≡ risen self.old.asked }
        ensures noted { Notes None None name.now rtype result }
    {
        self.asked = self.asked.saturating_add(1);
        if let Some(reply) = self.replies.reply(name, rtype) {
            return Ok(reply.to_vec(alloc)?);
        }
        self.faults = self.faults.saturating_add(1);
        Err(AskError::Failed)
    }
}

/// An upstream that never fails: it has the same reply to all questions.
#[derive(Drop)]
pub struct FixedUpstream<'a> {
    /// The reply.
    pub reply: &'a [u8],
    /// How many questions were asked: a count that stays at 2^64 - 1.
    pub asked: u64,
}

impl<'a> Upstream for FixedUpstream<'a> {
    ghost table = { λ _. None };

    ghost faults = { λ _. 0 };

    ghost asked = { λ upstream. upstream.asked };

    ghost heard = { λ _. None };

    fn ask(&mut self, alloc: Global, name: &Name, rtype: Rtype) -> Result<Vec<u8>, AskError>
        ensures fixed { IfOk result (λ reply. reply.items ≡ self.old.reply.now) }
        ensures reply { IfOk result (λ reply. IsReplyOf None name.now rtype reply.items) }
        ensures same_reply { self.new.reply.now ≡ self.old.reply.now }
        ensures later { 0 ≤ 0 }
        ensures failed { IsErrOf result AskError.Failed → Rose 0 0 }
        ensures counts { CountsFailure 0 0 result }
        ensures counted { self.new.asked ≡ risen self.old.asked }
        ensures noted { Notes None None name.now rtype result }
    {
        self.asked = self.asked.saturating_add(1);
        Ok(self.reply.to_vec(alloc)?)
    }
}

/// An upstream over another one, whose calls of given numbers fail.
#[derive(Drop)]
pub struct FailingUpstream<'a, U> {
    /// Who is asked at the other calls, once each.
    pub inner: U,
    /// The numbers of the calls that fail; the first call has the number 0.
    pub failing: &'a [u64],
    /// How many questions were asked: a count that stays at 2^64 - 1.
    pub asked: u64,
    /// How many of them failed: a count that stays at 2^64 - 1.
    pub faults: u64,
}

impl<'a, U: Upstream> Upstream for FailingUpstream<'a, U> {
    ghost table = { λ _. None };

    ghost faults = { λ upstream. upstream.faults };

    ghost asked = { λ upstream. upstream.asked };

    ghost heard = { λ _. None };

    fn ask(&mut self, alloc: Global, name: &Name, rtype: Rtype) -> Result<Vec<u8>, AskError>
        ensures as_listed { Contains self.old.failing.now self.old.asked → IsErrOf result AskError.Failed }
        ensures inner_reply { IfOk result (λ reply. IsReplyOf (U.table self.old.inner) name.now rtype reply.items) }
        ensures inner_failed { IsErrOf result AskError.Failed
            → Contains self.old.failing.now self.old.asked ⊎ HasNoReply (U.table self.old.inner) name.now rtype }
        ensures inner_table { U.table self.new.inner ≡ U.table self.old.inner }
        ensures inner_unasked { Contains self.old.failing.now self.old.asked → self.new.inner ≡ self.old.inner }
        ensures inner_counted { (Contains self.old.failing.now self.old.asked → ⊥) → U.asked self.new.inner ≡ risen (U.asked self.old.inner) }
        ensures inner_faults { (Contains self.old.failing.now self.old.asked → ⊥) → CountsFailure (U.faults self.old.inner) (U.faults self.new.inner) result }
        ensures inner_noted { (Contains self.old.failing.now self.old.asked → ⊥) → Notes (U.heard self.old.inner) (U.heard self.new.inner) name.now rtype result }
        ensures same_list { self.new.failing.now ≡ self.old.failing.now }
        ensures reply { IfOk result (λ reply. IsReplyOf None name.now rtype reply.items) }
        ensures later { self.old.faults ≤ self.new.faults }
        ensures failed { IsErrOf result AskError.Failed → Rose self.old.faults self.new.faults }
        ensures counts { CountsFailure self.old.faults self.new.faults result }
        ensures counted { self.new.asked ≡ risen self.old.asked }
        ensures noted { Notes None None name.now rtype result }
    {
        let fails = self.failing.contains(&self.asked);
        self.asked = self.asked.saturating_add(1);
        if !fails {
            match self.inner.ask(alloc, name, rtype) {
                Ok(reply) => return Ok(reply),
                Err(AskError::NoMemory) => return Err(AskError::NoMemory),
                Err(AskError::Failed) => {}
            }
        }
        self.faults = self.faults.saturating_add(1);
        Err(AskError::Failed)
    }
}
