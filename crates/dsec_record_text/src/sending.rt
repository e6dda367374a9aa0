//! Records sent as zone text, block by block.

ghost use Rattle.std.specs.Prelude.{◌≡◌, ◌≤◌, IsErrOf, OnOk};
ghost use Rattle.std.specs.Io.KnownBytes.{Appends};
ghost use Rattle.dsec_spec.specs.Outside.{Rose, SentFront};
ghost use Rattle.dsec_outside.specs.Faults.{CountsWrites};
ghost use Rattle.dsec_record_text.specs.Parts.{SentPart};
ghost use Rattle.dsec_record_text.specs.RecordText.{records_text};
ghost use Rattle.dsec_record_text.specs.TextBack.{ReadsAs};

use crate::laws::law_of_records_text;
use crate::lines::Lines;
use dsec_outside::{Halt, Sink, send, send_block};
use dsec_wire::Record;
use std::alloc::Global;

/// Sends the lines of records, whose text is read back as the records. The text is never held whole.
pub fn send_records<K: Sink>(alloc: Global, records: &[Record], sink: &mut K) -> Result<(), Halt>
    ensures later { K.faults sink.old ≤ K.faults sink.new }
    ensures write { IsErrOf result Halt.Write → Rose (K.faults sink.old) (K.faults sink.new) }
    ensures counts { CountsWrites (K.faults sink.old) (K.faults sink.new) result }
    ensures sent { OnOk result (Appends (K.written sink.old) (K.written sink.new) (records_text records.now)) }
    ensures front { SentFront (K.written sink.old) (K.written sink.new) (records_text records.now) }
    ensures memory { IsErrOf result Halt.Memory → SentPart (K.written sink.old) (K.written sink.new) (records_text records.now) }
    ensures back { ReadsAs (records_text records.now) records.now }
{
    law_of_records_text(records);
    let mut gathered = Vec::new(alloc);
    let mut lines = Lines::new(alloc);
    for it in records {
        lines = lines.push(&mut gathered, it)?;
        send_block(sink, &mut gathered)?;
    }
    send(sink, &gathered)?;
    Ok(())
}
