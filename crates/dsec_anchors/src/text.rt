//! Anchors as zone text (RFC 1035 5.1).

ghost use Rattle.std.specs.Prelude.{◌≡◌, ◌++◌, ◌∷◌, [], filter_map, OnOk};
ghost use Rattle.dsec_spec.specs.Reading.{Gives};
ghost use Rattle.dsec_anchors.specs.Texts.{anchors_in, record_in, records_left, wants_memory};

use crate::error::AnchorError;
use dsec_name::NoMemory;
use dsec_number::Class;
use dsec_outside::{LIMIT, line_past};
use dsec_wire::Record;
use dsec_zonefile::{Entry, InplaceError, Zonefile};
use std::alloc::Global;

/// The records of a zone text, of every type and class, in the order in which they stand there. Records that give no class,
/// as long as none before them has one, have the default. `$INCLUDE` entries are passed over.
pub fn read_anchors(
    alloc: Global,
    default: Option<Class>,
    text: &[u8],
) -> Result<Vec<Record>, AnchorError>
    ensures { Gives wants_memory (λ records. records.items) result (anchors_in default text.now) }
{
    if text.len() > LIMIT {
        let line = line_past(text);
        return Err(AnchorError::InplaceError(InplaceError { line }));
    }
    let mut zonefile = Zonefile::new(alloc);
    if let Some(class) = default {
        zonefile.set_default_class(class);
    }
    zonefile.extend_from_slice(text)?;
    all_records(alloc, &mut zonefile)
}

/// The records that are left.
fn all_records(alloc: Global, zonefile: &mut Zonefile) -> Result<Vec<Record>, AnchorError>
    ensures { Gives wants_memory (λ records. records.items) result (records_left zonefile.old.reader) }
{
    let mut records = Vec::new(alloc);
    while let Some(entry) = zonefile.next_entry()? {
        keep(&mut records, entry)?;
    }
    Ok(records)
}

/// Adds the record that an entry is, if it is one.
fn keep(records: &mut Vec<Record>, entry: Entry) -> Result<(), NoMemory>
    ensures { OnOk result (records.new.items ≡ records.old.items ++ filter_map record_in (entry ∷ [])) }
{
    match entry {
        Entry::Record(record) => records.push(record)?,
        Entry::Include { .. } => {}
    }
    Ok(())
}
