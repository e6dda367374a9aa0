//! The replies of a table, found by their question without a walk over the others.

ghost use Rattle.std.specs.Prelude.{◌≡◌, ◌++◌, [], ◌∷◌, OnOk, OnErr, None};
ghost use Rattle.std.specs.Option.{option_map};
ghost use Rattle.indexmap.specs.IndexMap.{get};
ghost use Rattle.dsec_spec.specs.Outside.{asked_of, with_entry};
ghost use Rattle.dsec_outside.specs.Replies.{equals, kept_reply};

use dsec_name::{Name, NoMemory};
use dsec_number::Rtype;
use indexmap::{Equivalent, IndexMap};
use std::alloc::Global;
use std::hash::{Hash, Hasher};
use std::marker::Model;

/// A question that a reply is kept for. Names compare without regard to ASCII case (RFC 4343 3).
#[derive(PartialEq, Eq, Hash, Drop)]
struct Question {
    name: Name,
    rtype: Rtype,
}

/// A question that is looked for.
#[derive(Clone, Copy, PartialEq, Eq, Hash)]
struct Asked<'a> {
    name: &'a Name,
    rtype: Rtype,
}

impl<'a> Equivalent<Question> for &Asked<'a> {
    ghost use Rattle.dsec_outside.specs.Replies.{asked_eq, asked_hash, is_asked};

    ghost equivalent = { λ asked. is_asked asked.now };

    ghost respects_hash = { λ asked. asked_hash asked.now };

    ghost respects_eq = { λ asked. asked_eq asked.now };

    fn equivalent(&self, key: &Question) -> bool {
        *self.name == key.name && self.rtype == key.rtype
    }
}

/// The replies that are kept for questions of class IN, in the order in which they were added.
#[derive(Drop)]
pub struct Replies {
    entries: IndexMap<Question, Option<Vec<u8>>>,
}

impl Model for Replies {
    ghost use Rattle.dsec_spec.specs.Outside.{Table};
    ghost use Rattle.dsec_outside.specs.Replies.{table_of};

    ghost Value = { Table };

    ghost view = { λ it. table_of it.entries.entries };
}

/// Adds a question that isn't there, and its reply.
fn put(
    entries: &mut IndexMap<Question, Option<Vec<u8>>>,
    question: Question,
    reply: Option<Vec<u8>>,
) -> Result<(), NoMemory>
    requires { get equals entries.old question ≡ None }
    ensures ok { OnOk result (entries.new.entries ≡ entries.old.entries ++ (question, reply) ∷ []) }
    ensures err { OnErr result (entries.new.entries ≡ entries.old.entries) }
{
    match entries.insert(question, reply) {
        Ok(_) => Ok(()),
        Err(_) => Err(NoMemory),
    }
}

impl Replies {
    /// No replies.
    pub fn new(alloc: Global) -> Self
        ensures { result ≡ [] }
    {
        Replies {
            entries: IndexMap::new(alloc),
        }
    }

    /// Adds a reply to a question; none where the question is to fail. Of a question that has one already, the
    /// first is kept.
    pub fn add(&mut self, name: Name, rtype: Rtype, reply: Option<Vec<u8>>) -> Result<(), NoMemory>
        ensures ok { OnOk result (self.new ≡ with_entry self.old (record { name = name; rtype = rtype; reply = kept_reply reply })) }
        ensures err { OnErr result (self.new ≡ self.old) }
    {
        let question = Question { name, rtype };
        if !self.entries.contains_key(&question) {
            return put(&mut self.entries, question, reply);
        }
        Ok(())
    }

    /// The reply to a question; none where it fails, or has none.
    pub fn reply(&self, name: &Name, rtype: Rtype) -> Option<&[u8]>
        ensures { option_map (λ reply. reply.now) result ≡ asked_of self.now name.now rtype }
    {
        match self.entries.get(&Asked { name, rtype }) {
            Some(kept) => kept.as_deref(),
            None => None,
        }
    }
}
