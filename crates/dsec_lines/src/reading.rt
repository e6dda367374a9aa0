//! Records and names of text.

use dsec_name::Name;
use dsec_number::Class;
use dsec_wire::Record;
use dsec_zonefile::{Entry, Zonefile};
use std::alloc::Global;

/// The record of a line of zone text (RFC 1035 5.1). A line that has no class is of class IN. None where the line isn't a record's, and where
/// there is no memory; of several lines the first counts.
pub fn record(alloc: Global, line: &str) -> Option<Record> {
    let mut zonefile = Zonefile::new(alloc);
    zonefile.set_default_class(Class::IN);
    if zonefile.extend_from_slice(line.as_bytes()).is_err() {
        return None;
    }
    match zonefile.next_entry() {
        Ok(Some(Entry::Record(record))) => Some(record),
        _ => None,
    }
}

/// The records of lines, each as `record` reads it, in their order. None where one of them has none, and where there is no memory.
pub fn records(alloc: Global, lines: &[&str]) -> Option<Vec<Record>> {
    let mut made = Vec::new(alloc);
    for line in lines {
        let one = record(alloc, line)?;
        if made.push(one).is_err() {
            return None;
        }
    }
    Some(made)
}

/// The name of a text. None where the text is no name's, and where there is no memory.
pub fn name(alloc: Global, text: &str) -> Option<Name> {
    match Name::parse(alloc, text) {
        Ok(name) => Some(name),
        Err(_) => None,
    }
}
