//! How values compare, as the clauses of functions.

ghost use Rattle.std.specs.Prelude.{◌≡◌, ◌↔◌, IsTrue};

use crate::sending::Halt;
use crate::source::Failed;
use crate::upstream::AskError;
use crate::whole::Stop;

/// `==` on failures is equality.
pub fn law_of_equal_failures(failure: Failed, other: Failed) -> bool
    ensures { IsTrue result ↔ (failure ≡ other) }
{
    failure == other
}

/// `==` on what halts sending is equality.
pub fn law_of_equal_halts(halt: Halt, other: Halt) -> bool
    ensures { IsTrue result ↔ (halt ≡ other) }
{
    halt == other
}

/// `==` on an upstream's errors is equality.
pub fn law_of_equal_ask_errors(error: AskError, other: AskError) -> bool
    ensures { IsTrue result ↔ (error ≡ other) }
{
    error == other
}

/// `==` on stops is equality.
pub fn law_of_equal_stops(stop: Stop, other: Stop) -> bool
    ensures { IsTrue result ↔ (stop ≡ other) }
{
    stop == other
}
