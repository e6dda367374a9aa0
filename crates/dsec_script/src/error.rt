//! Why a script is refused.

ghost use Rattle.std.specs.Prelude.{◌≡◌};
ghost use Rattle.dsec_script.specs.declared.error.ScriptError.TheVariants.{NoMemory};

use dsec_name::NoMemory;
use std::alloc::{AllocError, AllocFailed};

/// What is wrong with a script, in a word.
#[derive(Clone, Copy, Debug, PartialEq, Eq)]
pub enum Word {
    /// The script is longer than 16,777,216 octets.
    Size,
    /// The line's first word is none that a script knows.
    Other,
    /// The line is out of its place.
    Order,
    /// A `now` line is outside the grammar.
    Now,
    /// An `anchor` line is outside the grammar.
    Anchor,
    /// A `reply` line is outside the grammar.
    Reply,
    /// A `message` line is outside the grammar.
    Message,
    /// The script ends without a `now` line.
    End,
}

/// The first line of a script that is refused, and why.
#[derive(Clone, Copy, Debug, PartialEq, Eq)]
pub struct Refused {
    /// The line's number; the first line has the number 1, and lines that are passed over count.
    pub line: usize,
    /// What is wrong with it.
    pub word: Word,
}

/// Why a script was not read.
#[derive(Clone, Copy, Debug, PartialEq, Eq)]
pub enum ScriptError {
    /// The script is refused.
    Refused(Refused),
    /// There was no memory left, whatever the script.
    NoMemory,
}

impl From<NoMemory> for ScriptError {
    ghost from_gives = { λ _ error. error ≡ NoMemory };

    fn from(_error: NoMemory) -> ScriptError {
        ScriptError::NoMemory
    }
}

impl From<AllocError> for ScriptError {
    ghost from_gives = { λ _ error. error ≡ NoMemory };

    fn from(_error: AllocError) -> ScriptError {
        ScriptError::NoMemory
    }
}

impl<T: Drop> From<AllocFailed<T>> for ScriptError {
    ghost from_gives = { λ _ error. error ≡ NoMemory };

    fn from(_error: AllocFailed<T>) -> ScriptError {
        ScriptError::NoMemory
    }
}
