//! Where octets come from.

ghost use Rattle.std.specs.Prelude.{◌≡◌, ◌||◌, Bool, List, ℕ, Option};
ghost use Rattle.std.specs.Io.{ReadsAtMost};
ghost use Rattle.std.specs.Io.KnownBytes.{ReadConsumes};
ghost use Rattle.dsec_spec.specs.Outside.{HasCause};
ghost use Rattle.dsec_outside.specs.Ends.{tells_end};
ghost use Rattle.dsec_outside.specs.Faults.{CountsFault};

use thiserror::Error;

/// The other side failed; its count of faults rose in the call.
#[derive(Clone, Copy, Debug, PartialEq, Eq, Error)]
#[error("Failed")]
pub struct Failed;

/// A source of octets.
pub trait Source {
    /// What is left to read, where the source tells it.
    ghost left: { Self → Option (List ℕ) };

    /// How often a read failed: a count that stays at 2^64 - 1.
    ghost faults: { Self → ℕ };

    /// Whether a read told the end. It stays so.
    ghost ended: { Self → Bool };

    /// Reads octets to the front of the buffer and says how many; 0, for a buffer that isn't empty, is the
    /// end. Fewer than there is room for may come at any time.
    fn read(&mut self, buffer: &mut [u8]) -> Result<usize, Failed>
        ensures bound { ReadsAtMost result buffer.new }
        ensures octets { ReadConsumes (left self.old) (left self.new) result buffer.new }
        ensures cause { HasCause (faults self.old) (faults self.new) result }
        ensures counts { CountsFault (faults self.old) (faults self.new) result }
        ensures end { ended self.new ≡ (ended self.old || tells_end result buffer.new) };
}
