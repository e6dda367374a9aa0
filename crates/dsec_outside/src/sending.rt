//! Texts that go out whole, or in blocks.

ghost use Rattle.std.specs.Prelude.{◌≡◌, ◌<◌, ◌≤◌, ◌⊎◌, length, [], IsErrOf, IsOk, OnErr, OnOk};
ghost use Rattle.std.specs.Io.KnownBytes.{Appends};
ghost use Rattle.dsec_spec.specs.Outside.{Rose, SentFront};
ghost use Rattle.dsec_outside.specs.Faults.{CountsWrites};
ghost use Rattle.dsec_outside.specs.Sending.{SentBut};
ghost use Rattle.dsec_outside.specs.Statuses.{status_in};
ghost use Rattle.dsec_outside.specs.declared.sending.Halt.TheVariants.{Memory, Write};
ghost use Rattle.dsec_outside.specs.declared.sending.TheConstants.{BLOCK};

use crate::sink::Sink;
use crate::source::Failed;
use crate::whole::write_all;
use dsec_name::NoMemory;

/// How many octets of a text are gathered before they go out.
pub const BLOCK: usize = 65536;

/// Why not all of a text went out.
#[derive(Clone, Copy, Debug, PartialEq, Eq)]
pub enum Halt {
    /// A write failed.
    Write,
    /// There was no memory left.
    Memory,
}

impl From<NoMemory> for Halt {
    ghost from_gives = { λ _ halt. halt ≡ Memory };

    fn from(_error: NoMemory) -> Halt {
        Halt::Memory
    }
}

impl Halt {
    /// The status that a program ends with: 5 where a write failed, 6 where there was no memory.
    pub fn status(self) -> u8
        ensures values { (result ≡ 5) ⊎ (result ≡ 6) }
        ensures write { result ≡ 5 → self ≡ Write }
        ensures exact { result ≡ status_in self }
    {
        match self {
            Halt::Write => 5,
            Halt::Memory => 6,
        }
    }
}

/// Sends a text.
pub fn send<K: Sink>(sink: &mut K, octets: &[u8]) -> Result<(), Halt>
    ensures later { K.faults sink.old ≤ K.faults sink.new }
    ensures write { IsErrOf result Halt.Write → Rose (K.faults sink.old) (K.faults sink.new) }
    ensures counts { CountsWrites (K.faults sink.old) (K.faults sink.new) result }
    ensures only { IsErrOf result Halt.Memory → ⊥ }
    ensures sent { OnOk result (Appends (K.written sink.old) (K.written sink.new) octets.now) }
    ensures front { SentFront (K.written sink.old) (K.written sink.new) octets.now }
{
    match write_all(sink, octets) {
        Ok(()) => Ok(()),
        Err(Failed) => Err(Halt::Write),
    }
}

/// Sends what was gathered, once that is a block, and else keeps it. Where a write failed all of it is kept, also what went out.
pub fn send_block<K: Sink>(sink: &mut K, gathered: &mut Vec<u8>) -> Result<(), Halt>
    ensures later { K.faults sink.old ≤ K.faults sink.new }
    ensures write { IsErrOf result Halt.Write → Rose (K.faults sink.old) (K.faults sink.new) }
    ensures counts { CountsWrites (K.faults sink.old) (K.faults sink.new) result }
    ensures only { IsErrOf result Halt.Memory → ⊥ }
    ensures sent { OnOk result (SentBut (K.written sink.old) (K.written sink.new) gathered.old.items gathered.new.items) }
    ensures front { SentFront (K.written sink.old) (K.written sink.new) gathered.old.items }
    ensures kept { length gathered.old.items < BLOCK → IsOk result }
    ensures unsent { length gathered.old.items < BLOCK → K.written sink.new ≡ K.written sink.old }
    ensures stays { length gathered.old.items < BLOCK → gathered.new.items ≡ gathered.old.items }
    ensures whole { BLOCK ≤ length gathered.old.items → OnOk result (gathered.new.items ≡ []) }
    ensures err { OnErr result (gathered.new.items ≡ gathered.old.items) }
{
    if gathered.len() < BLOCK {
        return Ok(());
    }
    send(sink, gathered)?;
    gathered.clear();
    Ok(())
}
