//! A signed zone, written.

ghost use Rattle.std.specs.Prelude.{◌≡◌, ◌≤◌, ◌⊎◌, IfErr, OnErr, OnOk};
ghost use Rattle.std.specs.Io.KnownBytes.{Keeps};
ghost use Rattle.dsec_spec.specs.Outside.{Rose, risen};
ghost use Rattle.dsec_uses_signer.specs.Refusals.{RefusesWrite};
ghost use Rattle.dsec_uses_signer.specs.Whole.{WritesFront, WritesPart, WritesSigned};

use crate::refusal::Refusal;
use crate::signing::signed_zone;
use dsec_outside::{Halt, Sink};
use dsec_record_text::send_records;
use std::alloc::Global;

/// Writes the zone of a text, signed by its own key; a refusal is shown by its text.
pub fn write<K: Sink>(alloc: Global, text: &[u8], sink: &mut K) -> anyhow::Result<()>
    ensures sent { OnOk result (WritesSigned text.now (K.written sink.old) (K.written sink.new)) }
    ensures front { OnErr result (Keeps (K.written sink.old) (K.written sink.new) ⊎ WritesFront text.now (K.written sink.old) (K.written sink.new)) }
    ensures failed { OnErr result (Keeps (K.written sink.old) (K.written sink.new) ⊎ (Rose (K.faults sink.old) (K.faults sink.new) ⊎ WritesPart text.now (K.written sink.old) (K.written sink.new))) }
    ensures later { K.faults sink.old ≤ K.faults sink.new }
    ensures counts { OnOk result (K.faults sink.new ≡ K.faults sink.old) }
    ensures counts_once { OnErr result ((K.faults sink.new ≡ K.faults sink.old) ⊎ (K.faults sink.new ≡ risen (K.faults sink.old))) }
{
    write_signed(alloc, text, sink)?;
    Ok(())
}

/// Writes the zone of a text, signed by its own key.
fn write_signed<K: Sink>(alloc: Global, text: &[u8], sink: &mut K) -> Result<(), Refusal>
    ensures sent { OnOk result (WritesSigned text.now (K.written sink.old) (K.written sink.new)) }
    ensures front { OnErr result (Keeps (K.written sink.old) (K.written sink.new) ⊎ WritesFront text.now (K.written sink.old) (K.written sink.new)) }
    ensures failed { OnErr result (Keeps (K.written sink.old) (K.written sink.new) ⊎ (Rose (K.faults sink.old) (K.faults sink.new) ⊎ WritesPart text.now (K.written sink.old) (K.written sink.new))) }
    ensures later { K.faults sink.old ≤ K.faults sink.new }
    ensures counts { OnOk result (K.faults sink.new ≡ K.faults sink.old) }
    ensures counts_once { OnErr result ((K.faults sink.new ≡ K.faults sink.old) ⊎ (K.faults sink.new ≡ risen (K.faults sink.old))) }
    ensures why { IfErr result (RefusesWrite text.now (K.faults sink.old) (K.faults sink.new) (K.written sink.old) (K.written sink.new)) }
{
    let zone = signed_zone(alloc, text)?;
    match send_records(alloc, zone.as_slice(), sink) {
        Ok(()) => Ok(()),
        Err(Halt::Write) => Err(Refusal::Write),
        Err(Halt::Memory) => Err(Refusal::NoMemory),
    }
}
