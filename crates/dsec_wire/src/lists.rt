//! Lists of records and of questions, which a clause sees as lists.

ghost use Rattle.std.specs.Prelude.{◌≡◌, ◌↔◌, IsTrue, [], length};

use crate::record::{Question, Record};
use std::marker::Model;

/// The records of a section, in order.
#[derive(Drop)]
pub struct Records {
    items: Vec<Record>,
}

impl Model for Records {
    ghost use Rattle.std.specs.Prelude.{List};
    ghost use Rattle.dsec_spec.specs.Records as records;

    ghost Value = { List records.Record };

    ghost view = { λ it. it.items.items };
}

impl Records {
    /// The records of a vector.
    pub fn new(items: Vec<Record>) -> Records
        ensures { result ≡ items.items }
    {
        Records { items }
    }

    /// The records as a slice.
    pub fn as_slice(&self) -> &[Record]
        ensures { result.now ≡ self.now }
    {
        &self.items
    }

    /// How many there are.
    pub fn len(&self) -> usize
        ensures { result ≡ length self.now }
    {
        self.items.len()
    }

    /// Whether there is none.
    pub fn is_empty(&self) -> bool
        ensures { IsTrue result ↔ (self.now ≡ []) }
    {
        self.items.is_empty()
    }

    /// The vector that the records are kept in.
    pub fn into_vec(self) -> Vec<Record>
        ensures { result.items ≡ self }
    {
        self.items
    }
}

/// The questions of a message, in order.
#[derive(Drop)]
pub struct Questions {
    items: Vec<Question>,
}

impl Model for Questions {
    ghost use Rattle.std.specs.Prelude.{List};
    ghost use Rattle.dsec_spec.specs.Messages as messages;

    ghost Value = { List messages.Question };

    ghost view = { λ it. it.items.items };
}

impl Questions {
    /// The questions of a vector.
    pub fn new(items: Vec<Question>) -> Questions
        ensures { result ≡ items.items }
    {
        Questions { items }
    }

    /// The questions as a slice.
    pub fn as_slice(&self) -> &[Question]
        ensures { result.now ≡ self.now }
    {
        &self.items
    }

    /// How many there are.
    pub fn len(&self) -> usize
        ensures { result ≡ length self.now }
    {
        self.items.len()
    }

    /// Whether there is none.
    pub fn is_empty(&self) -> bool
        ensures { IsTrue result ↔ (self.now ≡ []) }
    {
        self.items.is_empty()
    }

    /// The vector that the questions are kept in.
    pub fn into_vec(self) -> Vec<Question>
        ensures { result.items ≡ self }
    {
        self.items
    }
}
