//! Zone text that is to be signed.

ghost use Rattle.std.specs.Prelude.{◌≡◌};
ghost use Rattle.dsec_signing.specs.Reading.{AnswersSource, AnswersZone, Keeps};
ghost use Rattle.dsec_signing.specs.Zone.{fit_in, is_made};

use crate::error::{Refused, SourceError, Word};
use dsec_number::{Class, Rtype};
use dsec_outside::{LIMIT, line_past};
use dsec_wire::Record;
use dsec_zonefile::{Entry, Zonefile};
use std::alloc::Global;

/// How many records a zone to be signed has at most.
pub const MOST_RECORDS: usize = 1_000_000;

/// The records of a zone text that is to be signed, in the order in which they stand there, each of class IN and of a type that signing
/// doesn't make; or its first line that is refused.
pub fn read_zone(alloc: Global, content: &[u8]) -> Result<Vec<Record>, SourceError>
    ensures { AnswersSource (λ records. records.items) content.now result }
{
    if content.len() > LIMIT {
        return Err(SourceError::Refused(Refused {
            line: line_past(content),
            word: Word::Size,
        }));
    }
    let mut zonefile = Zonefile::new(alloc);
    zonefile.set_default_class(Class::IN);
    zonefile.extend_from_slice(content)?;
    records_left(alloc, &mut zonefile)
}

/// The records that are left.
fn records_left(alloc: Global, zonefile: &mut Zonefile) -> Result<Vec<Record>, SourceError>
    ensures { AnswersZone (λ records. records.items) zonefile.old.reader result }
{
    let mut records = Vec::new(alloc);
    while let Some(entry) = zonefile.next_entry()? {
        keep(&mut records, entry, zonefile.line())?;
    }
    Ok(records)
}

/// Adds the record that an entry is, or refuses the line where it begins.
fn keep(records: &mut Vec<Record>, entry: Entry, line: usize) -> Result<(), SourceError>
    ensures { Keeps entry line records.old.items records.new.items result }
{
    let refused = Refused {
        line,
        word: Word::Zone,
    };
    let Some(record) = fit(entry) else {
        return Err(SourceError::Refused(refused));
    };
    if records.len() >= MOST_RECORDS {
        return Err(SourceError::Refused(refused));
    }
    records.push(record)?;
    Ok(())
}

/// The record that an entry is, if it may stand in a zone to be signed.
fn fit(entry: Entry) -> Option<Record>
    ensures { result ≡ fit_in entry }
{
    match entry {
        Entry::Record(record) => {
            if record.class() != Class::IN || is_made_type(record.rtype()) {
                return None;
            }
            Some(record)
        }
        Entry::Include { .. } => None,
    }
}

/// Whether signing makes records of a type.
fn is_made_type(rtype: Rtype) -> bool
    ensures { result ≡ is_made rtype }
{
    rtype == Rtype::RRSIG
        || rtype == Rtype::NSEC
        || rtype == Rtype::NSEC3
        || rtype == Rtype::NSEC3PARAM
}
