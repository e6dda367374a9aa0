//! Who is asked, and what may come of it.

ghost use Rattle.std.specs.Prelude.{◌≡◌, ◌≤◌, ℕ, List, Option, IfOk, IsErrOf};
ghost use Rattle.dsec_spec.specs.Outside.{Entry, HasNoReply, IsReplyOf, Rose, Table, risen};
ghost use Rattle.dsec_outside.specs.Faults.{CountsFailure};
ghost use Rattle.dsec_outside.specs.Hearing.{Notes};
ghost use Rattle.dsec_outside.specs.declared.upstream.AskError.TheVariants.{NoMemory};

use dsec_name::Name;
use dsec_number::Rtype;
use std::alloc::{AllocError, AllocFailed, Global};
use thiserror::Error;

/// Why there is no reply.
#[derive(Clone, Copy, Debug, PartialEq, Eq, Error)]
pub enum AskError {
    /// The other side failed, or has no reply; its count of faults rose in the call.
    #[error("Failed")]
    Failed,
    /// There was no memory left, whatever the question.
    #[error("out of memory")]
    NoMemory,
}

impl From<AllocError> for AskError {
    ghost from_gives = { λ _ error. error ≡ NoMemory };

    fn from(_error: AllocError) -> AskError {
        AskError::NoMemory
    }
}

impl<T: Drop> From<AllocFailed<T>> for AskError {
    ghost from_gives = { λ _ error. error ≡ NoMemory };

    fn from(_error: AllocFailed<T>) -> AskError {
        AskError::NoMemory
    }
}

/// Who is asked: a question of class IN with RD, CD and DO set (RFC 1035 4.1.1, RFC 4035 3.2).
pub trait Upstream {
    /// What it answers, where it tells it.
    ghost table: { Self → Option Table };

    /// How often a question failed: a count that stays at 2^64 - 1.
    ghost faults: { Self → ℕ };

    /// How many questions were asked: a count that stays at 2^64 - 1.
    ghost asked: { Self → ℕ };

    /// What was heard, where it tells it: each question with its reply, or none where it failed, in order.
    ghost heard: { Self → Option (List Entry) };

    /// The reply to the question of a name and a type, a message as it came (RFC 1035 4.1).
    fn ask(&mut self, alloc: Global, name: &Name, rtype: Rtype) -> Result<Vec<u8>, AskError>
        ensures same_table { table self.new ≡ table self.old }
        ensures reply { IfOk result (λ reply. IsReplyOf (table self.old) name.now rtype reply.items) }
        ensures no_reply { IsErrOf result AskError.Failed → HasNoReply (table self.old) name.now rtype }
        ensures later { faults self.old ≤ faults self.new }
        ensures failed { IsErrOf result AskError.Failed → Rose (faults self.old) (faults self.new) }
        ensures counts { CountsFailure (faults self.old) (faults self.new) result }
        ensures counted { asked self.new ≡ risen (asked self.old) }
        ensures noted { Notes (heard self.old) (heard self.new) name.now rtype result };
}
