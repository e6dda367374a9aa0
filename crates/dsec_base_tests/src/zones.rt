//! Zone text, read and refused.

use crate::zone_vectors::{DATA, FRONTS, LINES, WRITTEN};
use dsec_wire::Record;
use dsec_zonefile::{Entry, Zonefile, ZonefileError};
use std::alloc::{AllocError, Global};
use std::process::Abort;
use std::test::Fail;

/// Type, class, TTL and size of data as they stand in a message.
fn head_of(record: &Record) -> [u8; 10] {
    let [a, b] = record.rtype().to_int().to_be_bytes();
    let [c, d] = record.class().to_int().to_be_bytes();
    let [e, f, g, h] = record.ttl().as_secs().to_be_bytes();
    let [i, j] = ((record.rdata().octets().len() % 65536) as u16).to_be_bytes();
    [a, b, c, d, e, f, g, h, i, j]
}

/// Adds a record as it stands in a message without pointers.
pub(crate) fn push_record(out: &mut Vec<u8>, record: &Record) -> Result<(), Fail> {
    record.owner().compose(out)?;
    out.extend_from_slice(&head_of(record))?;
    Ok(out.extend_from_slice(record.rdata().octets().as_slice())?)
}

/// Adds an entry; `$INCLUDE` as its path and its origin.
fn push_entry(out: &mut Vec<u8>, entry: &Entry) -> Result<(), Fail> {
    match entry {
        Entry::Record(record) => push_record(out, record),
        Entry::Include { path, origin } => {
            out.extend_from_slice(path.as_slice())?;
            match origin {
                Some(name) => Ok(name.compose(out)?),
                None => Ok(()),
            }
        }
    }
}

/// The octets of the next entries, and the line that is refused, or 0.
fn rest(alloc: Global, zonefile: &mut Zonefile) -> Result<(Vec<u8>, usize), Fail> {
    let mut out = Vec::new(alloc);
    for _ in 0..100 {
        match zonefile.next_entry() {
            Ok(Some(entry)) => push_entry(&mut out, &entry)?,
            Ok(None) => return Ok((out, 0)),
            Err(ZonefileError::Inplace(error)) => return Ok((out, error.line)),
            Err(ZonefileError::NoMemory) => return Err(Fail::from(AllocError)),
        }
    }
    Err(Fail::new("more than a hundred entries"))
}

pub(crate) fn is_hex(alloc: Global, octets: &[u8], text: &str) -> bool {
    match hex::encode(alloc, octets) {
        Ok(found) => found.as_str() == text,
        Err(_) => false,
    }
}

/// Whether the text says these entries behind what was read before, and this line is refused.
fn says(
    alloc: Global,
    zonefile: &mut Zonefile,
    text: &[u8],
    entries: &str,
    line: usize,
) -> Result<bool, Fail> {
    zonefile.extend_from_slice(text)?;
    let (out, refused) = rest(alloc, zonefile)?;
    Ok(refused == line && is_hex(alloc, &out, entries))
}

fn assert_texts(rt: &impl Abort, alloc: Global, rows: &[(&[u8], &str, usize)]) -> Result<(), Fail> {
    for (text, entries, line) in rows {
        let mut zonefile = Zonefile::new(alloc);
        assert!(rt;
            says(alloc, &mut zonefile, text, entries, *line)?,
            "{entries}"
        );
    }
    Ok(())
}

#[test]
fn texts_line_by_line(rt: HostRuntime) -> Result<(), Fail> {
    assert_texts(&rt, rt.alloc(), &FRONTS)?;
    assert_texts(&rt, rt.alloc(), &DATA)?;
    assert_texts(&rt, rt.alloc(), &LINES)?;
    assert_texts(&rt, rt.alloc(), &WRITTEN)
}

/// What is added in turn to one text, the entries that it then says, and the line that is refused.
const PIECES: [(&[u8], &str, usize); 5] = [
    (b"", "", 0),
    (
        b"$ORIGIN e.\n$TTL 7\n\na IN TXT x\n; more\n\n",
        "0161016500001000010000000700020178",
        0,
    ),
    (b"", "", 0),
    (
        b"; of it\n TXT y\n TXT\nb TXT z\n",
        "0161016500001000010000000700020179",
        9,
    ),
    (b"c TXT z\n", "", 9),
];

#[test]
fn texts_piece_by_piece(rt: HostRuntime) -> Result<(), Fail> {
    let mut zonefile = Zonefile::new(rt.alloc());
    for (text, entries, line) in PIECES.iter() {
        assert!(rt;
            says(rt.alloc(), &mut zonefile, text, entries, *line)?,
            "{line}"
        );
    }
    Ok(())
}

/// Whether the end is found after each of so many empty lines, and a line that is refused has its number behind them.
fn passes(alloc: Global, lines: usize, bad: usize) -> Result<bool, Fail> {
    let mut zonefile = Zonefile::new(alloc);
    for _ in 0..lines {
        zonefile.extend_from_slice(b"\n")?;
        if !matches!(zonefile.next_entry(), Ok(None)) {
            return Ok(false);
        }
    }
    says(alloc, &mut zonefile, b"a. IN FOO\n", "", bad)
}

#[test]
fn lines_are_passed_once(rt: HostRuntime) -> Result<(), Fail> {
    assert!(rt; passes(rt.alloc(), 100_000, 100_001)?);
    Ok(())
}
