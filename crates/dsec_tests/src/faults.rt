//! Reads and writes that fail, at each call.

use crate::runs::{owned, status_of};
use crate::vectors::{ANCHOR, FOUR, GOOD, KEYS, UNSIGNED};
use dsec_outside::{FailingSink, FailingSource, OctetsSink, OctetsSource, PIECE};
use std::alloc::Global;

/// A script of three messages, of which one is secure.
const SCRIPT: [&str; 11] = [
    "now 500\n",
    ANCHOR,
    "reply example. DNSKEY ",
    KEYS,
    "\nmessage ",
    UNSIGNED,
    "\nmessage ",
    GOOD,
    "\nmessage ",
    FOUR,
    "\n",
];

/// The parts as one text.
fn joined(alloc: Global, parts: &[&str]) -> Option<Vec<u8>> {
    let mut text = Vec::new(alloc);
    for part in parts {
        if text.extend_from_slice(part.as_bytes()).is_err() {
            return None;
        }
    }
    Some(text)
}

/// What is written where the read of this number fails, the status, and how many reads have failed.
fn read(alloc: Global, words: &[String], source: &[u8], failing: u64) -> (Vec<u8>, u8, u64) {
    let failing = [failing];
    let mut sink = OctetsSink::new(alloc);
    let mut source = FailingSource {
        rest: source,
        failing: &failing,
        calls: 0,
        faults: 0,
        ended: false,
    };
    let status = status_of(alloc, words, &mut source, &mut sink);
    (sink.octets, status, source.faults)
}

/// Whether nothing is written where one of the first four reads fails, and something where none does.
fn are_reads(alloc: Global, words: &[String], source: &[u8]) -> bool {
    for number in 0..4 {
        let (octets, status, faults) = read(alloc, words, source, number);
        if status != 4 || faults != 1 || !octets.is_empty() {
            return false;
        }
    }
    let (octets, status, faults) = read(alloc, words, source, 4);
    status == 0 && faults == 0 && !octets.is_empty()
}

/// Whether this is so of the script and a comment behind it, as long as two pieces and an octet.
fn reads_fail(alloc: Global) -> Option<bool> {
    let words = owned(alloc, &["validate"])?;
    let mut source = joined(alloc, &SCRIPT)?;
    if source.push(b'#').is_err() || source.resize(2 * PIECE + 1, b' ').is_err() {
        return None;
    }
    Some(are_reads(alloc, &words, &source))
}

#[test]
fn a_read_fails(rt: HostRuntime) {
    assert!(rt; reads_fail(rt.alloc()) == Some(true));
}

/// What is written in such pieces where the writes of these numbers fail, and the status.
fn written<'a>(
    alloc: Global,
    words: &[String],
    source: &[u8],
    piece: usize,
    failing: &'a [u64],
) -> (FailingSink<'a>, u8) {
    let mut sink = FailingSink {
        octets: Vec::new(alloc),
        piece,
        failing,
        calls: 0,
        faults: 0,
    };
    let status = status_of(alloc, words, &mut OctetsSource { rest: source }, &mut sink);
    (sink, status)
}

/// Whether it is a front of the whole: the first failing call leaves nothing, and each later one leaves more.
fn is_front(sink: &FailingSink<'_>, want: &[u8], failing: u64, longest: usize) -> bool {
    sink.faults == 1
        && want.starts_with(&sink.octets)
        && sink.octets.is_empty() == (failing == 0)
        && (failing == 0 || longest < sink.octets.len())
}

/// How many writes fail, each in turn, until none does and the status is this; none where one leaves what it is not to.
fn failing_writes(
    alloc: Global,
    words: &[String],
    source: &[u8],
    piece: usize,
    done: u8,
) -> Option<u64> {
    let (whole, _) = written(alloc, words, source, piece, &[]);
    let mut longest = 0;
    for number in 0..4096u64 {
        let failing = [number];
        let (sink, status) = written(alloc, words, source, piece, &failing);
        if status == done && sink.octets == whole.octets {
            return Some(number);
        }
        if status != 5 || !is_front(&sink, &whole.octets, number, longest) {
            return None;
        }
        longest = sink.octets.len();
    }
    None
}

/// Whether writes of outcomes, of a refusal and of the usage fail so.
fn writes_fail(alloc: Global) -> Option<bool> {
    let words = owned(alloc, &["validate"])?;
    let script = joined(alloc, &SCRIPT)?;
    let outcomes = failing_writes(alloc, &words, &script, 40, 0)?;
    let refusal = failing_writes(alloc, &words, b"now x\n", 1, 3)?;
    let usage = failing_writes(alloc, &[], &script, 4096, 2)?;
    Some(10 < outcomes && refusal == 12 && usage == 1)
}

#[test]
fn a_write_fails(rt: HostRuntime) {
    assert!(rt; writes_fail(rt.alloc()) == Some(true));
}

/// Whether nothing is written to a sink that takes nothing, and this is the status.
fn writes_nothing(alloc: Global, source: &str, status: u8) -> bool {
    let Some(words) = owned(alloc, &["validate"]) else {
        return false;
    };
    let (sink, found) = written(alloc, &words, source.as_bytes(), 0, &[]);
    found == status && sink.octets.is_empty()
}

#[test]
fn a_sink_takes_nothing(rt: HostRuntime) {
    assert!(rt; writes_nothing(rt.alloc(), "now 1\nmessage\n", 5));
    assert!(rt; writes_nothing(rt.alloc(), "now 1\n", 0));
}
