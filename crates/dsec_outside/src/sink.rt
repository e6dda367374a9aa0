//! Where octets go.

ghost use Rattle.std.specs.Prelude.{◌<◌, ◌≤◌, List, ℕ, Option, length, IfOk};
ghost use Rattle.std.specs.Io.KnownBytes.{WriteAppends};
ghost use Rattle.dsec_spec.specs.Outside.{HasCause};
ghost use Rattle.dsec_outside.specs.Faults.{CountsFault};

use crate::source::Failed;

/// A sink of octets.
pub trait Sink {
    /// What was written so far, where the sink tells it.
    ghost written: { Self → Option (List ℕ) };

    /// How often a write failed: a count that stays at 2^64 - 1.
    ghost faults: { Self → ℕ };

    /// Writes octets from the front of the piece and says how many, at least one of a piece that isn't empty.
    fn write(&mut self, octets: &[u8]) -> Result<usize, Failed>
        ensures bound { IfOk result (λ n. n ≤ length octets.now) }
        ensures progress { IfOk result (λ n. 0 < length octets.now → 0 < n) }
        ensures octets { WriteAppends (written self.old) (written self.new) result octets.now }
        ensures cause { HasCause (faults self.old) (faults self.new) result }
        ensures counts { CountsFault (faults self.old) (faults self.new) result };
}
