//! The messages of a script.

ghost use Rattle.std.specs.Prelude.{◌≡◌, ◌↔◌, IsTrue, [], length};

use dsec_name::Octets;
use std::marker::Model;

/// A message that is to be validated, and when.
#[derive(Drop)]
pub struct Item {
    /// The moment, in seconds since 1970.
    pub seconds: u64,
    /// Whether it is the first one after a `now`.
    pub opens: bool,
    /// The message, as it came.
    pub octets: Octets,
}

/// The messages of a script, in order.
#[derive(Drop)]
pub struct Items {
    items: Vec<Item>,
}

impl Model for Items {
    ghost use Rattle.std.specs.Prelude.{List};
    ghost use Rattle.dsec_script.specs.declared.items.Item as declared;

    ghost Value = { List declared.Item };

    ghost view = { λ it. it.items.items };
}

impl Items {
    /// The messages of a vector.
    pub(crate) fn new(items: Vec<Item>) -> Items
        ensures { result ≡ items.items }
    {
        Items { items }
    }

    /// The messages as a slice.
    pub fn as_slice(&self) -> &[Item]
        ensures { result.now ≡ self.now }
    {
        &self.items
    }

    /// The messages as a vector.
    pub fn into_vec(self) -> Vec<Item>
        ensures { result.items ≡ self }
    {
        self.items
    }

    /// How many there are.
    pub fn len(&self) -> usize
        ensures { result ≡ length self.now }
    {
        self.items.len()
    }

    /// Whether there is none.
    pub fn is_empty(&self) -> bool
        ensures { IsTrue result ↔ (self.now ≡ []) }
    {
        self.items.is_empty()
    }
}
