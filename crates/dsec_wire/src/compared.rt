//! How values compare, as the clauses of functions.

ghost use Rattle.std.specs.Prelude.{◌≡◌, ◌↔◌, IsTrue};

use crate::error::MessageError;
use crate::layout::{Item, Tail};

/// `==` on errors of messages is equality.
pub fn law_of_equal_message_errors(error: MessageError, other: MessageError) -> bool
    ensures { IsTrue result ↔ (error ≡ other) }
{
    error == other
}

/// `==` on items is equality.
pub fn law_of_equal_items(item: Item, other: Item) -> bool
    ensures { IsTrue result ↔ (item ≡ other) }
{
    item == other
}

/// `==` on tails is equality.
pub fn law_of_equal_tails(tail: Tail, other: Tail) -> bool
    ensures { IsTrue result ↔ (tail ≡ other) }
{
    tail == other
}
