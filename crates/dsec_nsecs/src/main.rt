//! Prints the NSEC or NSEC3 records of zones: the words are an apex and a key in hex for each, the zones' text comes from the standard
//! input. The key's DNSKEY record is added first, as the command `sign` does. From the words `nsec3`, iterations, a salt in hex or `-`,
//! and 1 or 0 for Opt-Out on, the zones that follow get NSEC3 records.
#![tactic(auto)]

ghost use Rattle.std.specs.Prelude.{◌<◌, length};

use dsec_chain::{DenialError, generate_nsecs};
use dsec_hashed::{Nsec3Records, generate_nsec3s};
use dsec_name::{Name, NoMemory, Octets};
use dsec_number::{Class, Rtype, Ttl};
use dsec_outside::{Reading, Stop, Writing, read_all, write_all};
use dsec_sorted::{
    InsertError, Nsec3Config, Nsec3Salt, RecordsIter, SortedRecords, is_of_one_class,
};
use dsec_wire::{Data, Record};
use dsec_word::{ReadError, number, push_hex, push_number, read_hex, read_name};
use dsec_zonefile::{Entry, Zonefile, ZonefileError};
use std::alloc::{AllocError, AllocFailed, Global};
use std::env;
use std::io::ErrorKind;
use std::process::ExitCode;

/// Why nothing is printed.
#[derive(Drop)]
enum Status {
    /// The words are others.
    Words,
    /// The zone's text is refused.
    Zone,
    /// A read failed.
    Read,
    /// A write failed.
    Write,
    /// There was no memory left.
    NoMemory,
    /// The chain isn't made.
    Denial,
}

impl Status {
    /// The number that the program ends with.
    fn number(&self) -> u8 {
        match self {
            Status::Words => 2,
            Status::Zone => 3,
            Status::Read => 4,
            Status::Write => 5,
            Status::NoMemory => 6,
            Status::Denial => 7,
        }
    }
}

impl From<NoMemory> for Status {
    fn from(_error: NoMemory) -> Status {
        Status::NoMemory
    }
}

impl From<AllocError> for Status {
    fn from(_error: AllocError) -> Status {
        Status::NoMemory
    }
}

impl<T: Drop> From<AllocFailed<T>> for Status {
    fn from(_error: AllocFailed<T>) -> Status {
        Status::NoMemory
    }
}

impl From<ReadError> for Status {
    fn from(error: ReadError) -> Status {
        match error {
            ReadError::Bad => Status::Words,
            ReadError::NoMemory => Status::NoMemory,
        }
    }
}

impl From<ZonefileError> for Status {
    fn from(error: ZonefileError) -> Status {
        match error {
            ZonefileError::Inplace(_) => Status::Zone,
            ZonefileError::NoMemory => Status::NoMemory,
        }
    }
}

impl From<Stop> for Status {
    fn from(error: Stop) -> Status {
        match error {
            Stop::Read => Status::Read,
            Stop::Memory => Status::NoMemory,
        }
    }
}

impl From<DenialError> for Status {
    fn from(error: DenialError) -> Status {
        match error {
            DenialError::NoMemory => Status::NoMemory,
            _ => Status::Denial,
        }
    }
}

fn main(rt: HostRuntime) -> ExitCode {
    match show(&rt) {
        Ok(()) => ExitCode::from(0),
        Err(status) => ExitCode::from(status.number()),
    }
}

/// Prints the records.
fn show(rt: &HostRuntime) -> Result<(), Status> {
    let alloc = rt.alloc();
    let words = words_of(rt)?;
    if words.is_empty() {
        return Err(Status::Words);
    }
    let mut source = Reading {
        inner: rt.stdin(),
        faults: 0,
        ended: false,
    };
    let text = read_all(alloc, &mut source)?;
    let mut sorted = SortedRecords::new(alloc);
    sorted.extend(records_of(alloc, &text)?)?;
    show_zones(rt, &mut sorted, &words)
}

/// Prints the records of each zone that the words name.
fn show_zones(
    rt: &HostRuntime,
    sorted: &mut SortedRecords,
    words: &[String],
) -> Result<(), Status> {
    let mut hashing = None;
    let mut next = 0;
    for at in 0..words.len() {
        if at == next {
            if words[at].as_str() == "nsec3" {
                hashing = Some(at);
                next = at + 4;
            } else {
                show_zone(rt, sorted, words, at, hashing)?;
                next = at + 2;
            }
        }
    }
    Ok(())
}

/// Prints the records of the zone whose apex and key stand at a place of the words, with its key; NSEC3 records where a place says how
/// names are hashed.
fn show_zone(
    rt: &HostRuntime,
    sorted: &mut SortedRecords,
    words: &[String],
    at: usize,
    hashing: Option<usize>,
) -> Result<(), Status>
    requires { at < length words.now }
{
    let alloc = rt.alloc();
    let apex = read_name(alloc, word_at(words, at)?.as_bytes())?;
    let key = read_hex(alloc, word_at(words, at + 1)?.as_bytes())?;
    add(sorted, key_record(alloc, &apex, &key)?)?;
    let chain = chain_of(alloc, &apex, sorted, words, hashing)?;
    write_records(rt, &chain)
}

/// The word at a place.
fn word_at(words: &[String], at: usize) -> Result<&str, Status> {
    match words.get(at) {
        Some(word) => Ok(word.as_str()),
        None => Err(Status::Words),
    }
}

/// The chain's records.
fn chain_of(
    alloc: Global,
    apex: &Name,
    sorted: &SortedRecords,
    words: &[String],
    hashing: Option<usize>,
) -> Result<Vec<Record>, Status> {
    match hashing {
        None => nsecs_of(alloc, apex, sorted),
        Some(at) => {
            let config = config_of(alloc, words, at)?;
            nsec3s_of(alloc, apex, sorted, &config)
        }
    }
}

/// How names are hashed, by the three words after a place.
fn config_of(alloc: Global, words: &[String], at: usize) -> Result<Nsec3Config, Status> {
    let Some(words) = words.get(at..) else {
        return Err(Status::Words);
    };
    let [_, iterations, salt, opt_out, ..] = words else {
        return Err(Status::Words);
    };
    Ok(Nsec3Config {
        iterations: iterations_of(iterations)?,
        salt: salt_of(alloc, salt)?,
        opt_out: flag_of(opt_out)?,
    })
}

/// Whether a word is 1, and not 0.
fn flag_of(word: &str) -> Result<bool, Status> {
    match word {
        "0" => Ok(false),
        "1" => Ok(true),
        _ => Err(Status::Words),
    }
}

/// The number of iterations that a word says.
fn iterations_of(word: &str) -> Result<u16, Status> {
    let Some(iterations) = number(word.as_bytes(), 65535) else {
        return Err(Status::Words);
    };
    match u16::try_from(iterations) {
        Ok(iterations) => Ok(iterations),
        Err(_) => Err(Status::Words),
    }
}

/// The salt that a word says, in hex; none by `-`.
fn salt_of(alloc: Global, word: &str) -> Result<Nsec3Salt, Status> {
    if word == "-" {
        return Ok(Nsec3Salt::empty());
    }
    let octets = read_hex(alloc, word.as_bytes())?;
    match Nsec3Salt::from_octets(octets.as_slice()) {
        Ok(salt) => Ok(salt),
        Err(_) => Err(Status::Words),
    }
}

/// Why the words can't be had: there is no memory for them, or one isn't UTF-8.
fn unread(kind: ErrorKind) -> Status {
    match kind {
        ErrorKind::OutOfMemory => Status::NoMemory,
        _ => Status::Words,
    }
}

/// The words after the program's name.
fn words_of(rt: &HostRuntime) -> Result<Vec<String>, Status> {
    let mut words = Vec::new(rt.alloc());
    match env::args(rt) {
        Ok(args) => {
            for word in args.skip(1) {
                words.push(word)?;
            }
        }
        Err(error) => return Err(unread(error.kind())),
    }
    Ok(words)
}

/// The records of zone text, which may have no other entries.
fn records_of(alloc: Global, text: &[u8]) -> Result<Vec<Record>, Status> {
    let mut zonefile = Zonefile::new(alloc);
    zonefile.set_default_class(Class::IN);
    zonefile.extend_from_slice(text)?;
    let mut records = Vec::new(alloc);
    for _ in 0..text.len() {
        match zonefile.next_entry()? {
            Some(Entry::Record(record)) => records.push(record)?,
            Some(Entry::Include { .. }) => return Err(Status::Zone),
            None => break,
        }
    }
    Ok(records)
}

/// The key's DNSKEY record: flags 257, protocol 3, algorithm 13.
fn key_record(alloc: Global, apex: &Name, key: &Octets) -> Result<Record, Status> {
    let mut octets = Vec::new(alloc);
    octets.extend_from_slice(&[1, 1, 3, 13])?;
    octets.extend_from_slice(key.as_slice())?;
    if !Data::is_readable(Rtype::DNSKEY, &octets) {
        return Err(Status::Words);
    }
    let rdata = Data::new(Rtype::DNSKEY, Octets::new(octets));
    Ok(Record::new(apex.clone()?, Class::IN, Ttl::from_secs(3600), rdata))
}

/// Adds a record, unless a duplicate of it is there.
fn add(sorted: &mut SortedRecords, one: Record) -> Result<(), Status> {
    match sorted.insert(one) {
        Err(InsertError::NoMemory(_)) => Err(Status::NoMemory),
        _ => Ok(()),
    }
}

/// The NSEC records of sorted records.
fn nsecs_of(alloc: Global, apex: &Name, sorted: &SortedRecords) -> Result<Vec<Record>, Status> {
    let records = sorted.as_slice();
    if !is_of_one_class(records) {
        return Err(Status::Zone);
    }
    let owners = RecordsIter::new_from_owned(records);
    let nsecs = generate_nsecs(alloc, apex, owners)?;
    Ok(nsecs)
}

/// The NSEC3 records of sorted records, and the NSEC3PARAM record last.
fn nsec3s_of(
    alloc: Global,
    apex: &Name,
    sorted: &SortedRecords,
    config: &Nsec3Config,
) -> Result<Vec<Record>, Status> {
    let records = sorted.as_slice();
    if !is_of_one_class(records) {
        return Err(Status::Zone);
    }
    let owners = RecordsIter::new_from_owned(records);
    let Nsec3Records { nsec3s, nsec3param } = generate_nsec3s(alloc, apex, owners, config)?;
    let mut all = nsec3s;
    all.push(nsec3param)?;
    Ok(all)
}

/// Writes records, one a line, in the generic form (RFC 3597 5).
fn write_records(rt: &HostRuntime, records: &[Record]) -> Result<(), Status> {
    let alloc = rt.alloc();
    let mut sink = Writing {
        inner: rt.stdout(),
        faults: 0,
    };
    for one in records {
        let line = line_of(alloc, one)?;
        if write_all(&mut sink, &line).is_err() {
            return Err(Status::Write);
        }
    }
    Ok(())
}

/// A record's line.
fn line_of(alloc: Global, one: &Record) -> Result<Vec<u8>, Status> {
    let owner = one.owner();
    let rdata = one.rdata().octets();
    let mut line = format!(in alloc; "{owner} ")?.into_bytes();
    push_number(&mut line, u64::from(one.ttl().as_secs()))?;
    line.extend_from_slice(b" CLASS")?;
    push_number(&mut line, u64::from(one.class().to_int()))?;
    line.extend_from_slice(b" TYPE")?;
    push_number(&mut line, u64::from(one.rtype().to_int()))?;
    line.extend_from_slice(b" \\# ")?;
    push_number(&mut line, rdata.len() as u64)?;
    line.push(b' ')?;
    push_hex(&mut line, rdata.as_slice())?;
    line.push(b'\n')?;
    Ok(line)
}
