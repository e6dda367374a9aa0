//! Sources, sinks and upstreams at work: failing calls, pieces, adapters over std, and who answers.

use dsec_name::Name;
use dsec_number::Rtype;
use dsec_outside::{
    AskError, Failed, FailingSink, FailingSource, FailingUpstream, FixedUpstream, Heard,
    HearingUpstream, OctetsSink, OctetsSource, PIECE, Reading, Replies, Sink, Source, Stop,
    TableUpstream, Upstream, Writing, read_all, write_all,
};
use std::alloc::Global;
use std::io::Cursor;
use std::test::Fail;

/// Whether reading gave these octets, or failed where none are wanted.
fn is_read(read: Result<Vec<u8>, Stop>, want: Option<&[u8]>) -> bool {
    match read {
        Ok(all) => want == Some(all.as_slice()),
        Err(stop) => want.is_none() && stop == Stop::Read,
    }
}

/// Numbers of calls that fail, what is read of `octets`, and how many calls are made. One reads all, and the next one finds
/// the end.
const READS: [(u64, Option<&[u8]>, u64); 3] = [(0, None, 1), (1, None, 2), (2, Some(b"octets"), 2)];

fn reads_but(alloc: Global, failing: u64, want: Option<&[u8]>, calls: u64) -> bool {
    let mut source = FailingSource {
        rest: b"octets",
        failing: &[failing],
        calls: 0,
        faults: 0,
        ended: false,
    };
    let read = read_all(alloc, &mut source);
    let faults = if want.is_none() { 1 } else { 0 };
    let is_counted = source.faults == faults && source.calls == calls;
    is_counted && is_read(read, want) && source.ended == want.is_some()
}

#[test]
fn sources_that_fail(rt: HostRuntime) {
    for (failing, want, calls) in READS.iter() {
        assert!(rt; reads_but(rt.alloc(), *failing, *want, *calls));
    }
}

#[test]
fn sources_of_several_pieces(rt: HostRuntime) {
    let octets = [7; 2 * PIECE + 5];
    let mut source = OctetsSource { rest: &octets };
    let read = read_all(rt.alloc(), &mut source);
    assert!(rt; is_read(read, Some(octets.as_slice())) && source.rest.is_empty());
}

/// How many octets a sink takes at once, the numbers of calls that fail, the front of `octets` that is written, and how many calls
/// are made. A sink that takes nothing fails at once.
const WRITES: [(usize, &[u64], &[u8], u64); 5] = [
    (1, &[], b"octets", 6),
    (2, &[1], b"oc", 2),
    (1, &[4], b"octe", 5),
    (9, &[0], b"", 1),
    (0, &[7], b"", 1),
];

fn writes(alloc: Global, piece: usize, failing: &[u64], front: &[u8], calls: u64) -> bool {
    let mut sink = FailingSink {
        octets: Vec::new(alloc),
        piece,
        failing,
        calls: 0,
        faults: 0,
    };
    let failed = write_all(&mut sink, b"octets") == Err(Failed);
    let faults = if failed { 1 } else { 0 };
    failed != failing.is_empty()
        && sink.faults == faults
        && sink.calls == calls
        && sink.octets.as_slice() == front
}

#[test]
fn sinks_that_fail(rt: HostRuntime) {
    for (piece, failing, front, calls) in WRITES.iter() {
        assert!(rt; writes(rt.alloc(), *piece, failing, front, *calls));
    }
}

#[test]
fn sinks_in_memory(rt: HostRuntime) {
    let mut sink = OctetsSink::new(rt.alloc());
    let both = write_all(&mut sink, b"oct").is_ok() && write_all(&mut sink, b"ets").is_ok();
    assert!(rt; both && sink.octets.as_slice() == b"octets".as_slice());
}

#[test]
fn readers_of_std(rt: HostRuntime) {
    let mut source = Reading {
        inner: Cursor::new(b"octets".as_slice()),
        faults: 0,
        ended: false,
    };
    let mut front = [0; 2];
    let count = source.read(&mut front);
    assert!(rt; count == Ok(2) && front == *b"oc");
    assert!(rt; !source.ended);
    let rest = read_all(rt.alloc(), &mut source);
    assert!(rt; is_read(rest, Some(b"tets")) && source.faults == 0 && source.ended);
}

#[test]
fn writers_of_std(rt: HostRuntime) {
    let mut sink = Writing {
        inner: Vec::new(rt.alloc()),
        faults: 0,
    };
    let is_written = write_all(&mut sink, b"octets").is_ok();
    assert!(rt; is_written && sink.inner.as_slice() == b"octets".as_slice());
}

// A writer with room for four octets: the rest of a piece fails.
#[test]
fn a_writer_that_runs_full(rt: HostRuntime) {
    let mut room = [0; 4];
    let mut sink = Writing {
        inner: room.as_mut_slice(),
        faults: 0,
    };
    let count = sink.write(b"oct");
    let rest = write_all(&mut sink, b"ets");
    assert!(rt; count == Ok(3) && rest == Err(Failed) && sink.faults == 1 && room == *b"octe");
}

/// Adds a reply, or one that fails.
fn add(
    alloc: Global,
    replies: &mut Replies,
    name: &str,
    rtype: Rtype,
    reply: Option<&[u8]>,
) -> Result<(), Fail> {
    let reply = match reply {
        Some(octets) => Some(octets.to_vec(alloc)?),
        None => None,
    };
    Ok(replies.add(Name::parse(alloc, name)?, rtype, reply)?)
}

/// The replies of a table, of which later ones for the same question are dropped.
const REPLIES: [(&str, Rtype, Option<&[u8]>); 5] = [
    ("A.", Rtype::A, Some(b"first")),
    ("a.", Rtype::A, Some(b"second")),
    ("b.", Rtype::A, None),
    ("b.", Rtype::A, Some(b"third")),
    ("b.", Rtype::NS, Some(b"fourth")),
];

fn table(alloc: Global) -> Result<TableUpstream, Fail> {
    let mut replies = Replies::new(alloc);
    for (name, rtype, reply) in REPLIES.iter() {
        add(alloc, &mut replies, name, *rtype, *reply)?;
    }
    Ok(TableUpstream::new(replies))
}

/// Whether the question has this reply, or fails where none is wanted.
fn answers<U: Upstream>(
    alloc: Global,
    upstream: &mut U,
    name: &str,
    rtype: Rtype,
    want: Option<&[u8]>,
) -> bool {
    let Ok(name) = Name::parse(alloc, name) else {
        return false;
    };
    match upstream.ask(alloc, &name, rtype) {
        Ok(reply) => want == Some(reply.as_slice()),
        Err(error) => want.is_none() && error == AskError::Failed,
    }
}

/// Questions, and what a table answers of which the first and the third question fail.
const QUESTIONS: [(&str, Rtype, Option<&[u8]>); 8] = [
    ("a.", Rtype::A, None),
    ("A.", Rtype::A, Some(b"first")),
    ("B.", Rtype::NS, None),
    ("B.", Rtype::NS, Some(b"fourth")),
    ("b.", Rtype::A, None),
    ("a.", Rtype::NS, None),
    (".", Rtype::A, None),
    ("a.", Rtype::A, Some(b"first")),
];

/// Whether each question is answered so.
fn answers_all<U: Upstream>(alloc: Global, upstream: &mut U) -> bool {
    for (name, rtype, want) in QUESTIONS.iter() {
        if !answers(alloc, upstream, name, *rtype, *want) {
            return false;
        }
    }
    true
}

#[test]
fn upstreams_that_fail(rt: HostRuntime) -> Result<(), Fail> {
    let mut upstream = FailingUpstream {
        inner: table(rt.alloc())?,
        failing: &[0, 2],
        asked: 0,
        faults: 0,
    };
    assert!(rt; answers_all(rt.alloc(), &mut upstream));
    assert!(rt; upstream.asked == 8 && upstream.faults == 5 && upstream.inner.asked == 6);
    Ok(())
}

#[test]
fn one_answer_to_all(rt: HostRuntime) {
    let mut fixed = FixedUpstream {
        reply: b"same",
        asked: 0,
    };
    assert!(rt; answers(rt.alloc(), &mut fixed, "a.", Rtype::DS, Some(b"same")));
    assert!(rt; fixed.asked == 1);
}

/// Whether a question was heard in these letters with this reply, or none.
fn is_heard(alloc: Global, heard: &Heard, name: &str, rtype: Rtype, reply: Option<&[u8]>) -> bool {
    let Ok(name) = Name::parse(alloc, name) else {
        return false;
    };
    let is_reply = match &heard.reply {
        Some(octets) => reply == Some(octets.as_slice()),
        None => reply.is_none(),
    };
    is_reply && heard.rtype == rtype && heard.name.is_identical(&name)
}

#[test]
fn what_is_heard_is_kept(rt: HostRuntime) -> Result<(), Fail> {
    let mut upstream = HearingUpstream::new(rt.alloc(), table(rt.alloc())?);
    assert!(rt; answers(rt.alloc(), &mut upstream, "A.", Rtype::A, Some(b"first")));
    assert!(rt; answers(rt.alloc(), &mut upstream, "c.", Rtype::NS, None));
    let [first, second] = upstream.heard.as_slice() else {
        return Err(Fail::new("heard"));
    };
    assert!(rt; is_heard(rt.alloc(), first, "A.", Rtype::A, Some(b"first")));
    assert!(rt; is_heard(rt.alloc(), second, "c.", Rtype::NS, None));
    assert!(rt; upstream.asked == 2 && upstream.inner.faults == 1);
    Ok(())
}
