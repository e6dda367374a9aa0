//! A source read whole, and octets written whole.

ghost use Rattle.std.specs.Prelude.{◌≡◌, ◌+◌, ◌≤◌, length, true, IfOk, IsErrOf, OnErr, OnOk};
ghost use Rattle.std.specs.Io.KnownBytes.{Appends, Consumes, IsAtEnd};
ghost use Rattle.dsec_spec.specs.Outside.{Rose, SentFront};
ghost use Rattle.dsec_outside.specs.Ends.{TakesAtMost};
ghost use Rattle.dsec_outside.specs.Faults.{CountsFault, CountsReads};
ghost use Rattle.dsec_outside.specs.Limit.{limit};
ghost use Rattle.dsec_outside.specs.declared.whole.Stop.TheVariants.{Memory};

use crate::sink::Sink;
use crate::source::{Failed, Source};
use std::alloc::{AllocError, AllocFailed, Global};
use thiserror::Error;

/// How many octets a source may have to be read whole: reading stops past it.
pub const LIMIT: usize = 16_777_216;

/// How many octets a call reads at most.
pub const PIECE: usize = 4096;

/// Why a source was not read whole.
#[derive(Clone, Copy, Debug, PartialEq, Eq, Error)]
pub enum Stop {
    /// A read failed.
    #[error("Read")]
    Read,
    /// There was no memory left.
    #[error("out of memory")]
    Memory,
}

impl From<AllocError> for Stop {
    ghost from_gives = { λ _ stop. stop ≡ Memory };

    fn from(_error: AllocError) -> Stop {
        Stop::Memory
    }
}

impl<T: Drop> From<AllocFailed<T>> for Stop {
    ghost from_gives = { λ _ stop. stop ≡ Memory };

    fn from(_error: AllocFailed<T>) -> Stop {
        Stop::Memory
    }
}

/// All octets of the source up to its end, or one more than `LIMIT` of them where it has more. After an error
/// the octets that were read are lost.
pub fn read_all<S: Source>(alloc: Global, source: &mut S) -> Result<Vec<u8>, Stop>
    ensures later { S.faults source.old ≤ S.faults source.new }
    ensures read { IsErrOf result Stop.Read → Rose (S.faults source.old) (S.faults source.new) }
    ensures counts { CountsReads (S.faults source.old) (S.faults source.new) result }
    ensures taken { IfOk result (λ all. Consumes (S.left source.old) (S.left source.new) all.items) }
    ensures whole { IfOk result (λ all. length all.items ≤ limit → IsAtEnd (S.left source.new)) }
    ensures bound { IfOk result (λ all. length all.items ≤ limit + 1) }
    ensures within { TakesAtMost (limit + 1) (S.left source.old) (S.left source.new) }
    ensures ended { IsErrOf result Stop.Read → S.ended source.new ≡ S.ended source.old }
    ensures goes_on { IsErrOf result Stop.Memory → S.ended source.new ≡ S.ended source.old }
    ensures end { IfOk result (λ all. length all.items ≤ limit → S.ended source.new ≡ true) }
{
    let mut all = Vec::new(alloc);
    let mut piece = [0u8; PIECE];
    while all.len() <= LIMIT {
        let room = PIECE.min(LIMIT + 1 - all.len());
        let Ok(count) = source.read(&mut piece[..room]) else {
            return Err(Stop::Read);
        };
        if count == 0 {
            return Ok(all);
        }
        all.extend_from_slice(&piece[..count])?;
    }
    Ok(all)
}

/// Writes all of the octets, or fails after a front of them.
pub fn write_all<K: Sink>(sink: &mut K, octets: &[u8]) -> Result<(), Failed>
    ensures later { K.faults sink.old ≤ K.faults sink.new }
    ensures failed { OnErr result (Rose (K.faults sink.old) (K.faults sink.new)) }
    ensures counts { CountsFault (K.faults sink.old) (K.faults sink.new) result }
    ensures sent { OnOk result (Appends (K.written sink.old) (K.written sink.new) octets.now) }
    ensures front { SentFront (K.written sink.old) (K.written sink.new) octets.now }
{
    let mut at = 0;
    while at < octets.len() {
        let count = sink.write(&octets[at..])?;
        at += count;
    }
    Ok(())
}
