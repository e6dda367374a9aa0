//! Sources and sinks in memory: those that never fail by themselves, and those whose calls of given numbers fail.

ghost use Rattle.std.specs.Prelude.{◌≡◌, ◌<◌, ◌≤◌, ◌+◌, ◌↔◌, ◌⊎◌, ◌||◌, [], true, Some, Ok, Contains, IfOk, IsErr, IsOk, OnErr, length, min, vec_capacity, vec_len};
ghost use Rattle.std.specs.Io.{ReadsAtMost};
ghost use Rattle.std.specs.Io.KnownBytes.{ReadConsumes, WriteAppends};
ghost use Rattle.dsec_spec.specs.Outside.{HasCause, risen};
ghost use Rattle.dsec_outside.specs.Ends.{tells_end};
ghost use Rattle.dsec_outside.specs.Faults.{CountsFault};

use crate::sink::Sink;
use crate::source::{Failed, Source};
use std::alloc::Global;
use std::io::Read;

/// Octets as a source that never fails.
#[derive(Drop)]
pub struct OctetsSource<'a> {
    /// What is left to read.
    pub rest: &'a [u8],
}

impl<'a> Source for OctetsSource<'a> {
    ghost left = { λ source. Some source.rest.now };

    ghost faults = { λ _. 0 };

    // No read fails, so none can be blamed that is behind the end.
    ghost ended = { λ _. true };

    fn read(&mut self, buffer: &mut [u8]) -> Result<usize, Failed>
        ensures count { result ≡ Ok (min (length self.old.rest.now) (length buffer.old)) }
        ensures bound { ReadsAtMost result buffer.new }
        ensures octets { ReadConsumes (Some self.old.rest.now) (Some self.new.rest.now) result buffer.new }
        ensures cause { HasCause 0 0 result }
        ensures counts { CountsFault 0 0 result }
        ensures end { true ≡ (true || tells_end result buffer.new) }
    {
        self.rest.read(buffer).map_err(|_| Failed)
    }
}

/// Octets as a source whose calls of given numbers fail.
#[derive(Drop)]
pub struct FailingSource<'a> {
    /// What is left to read.
    pub rest: &'a [u8],
    /// The numbers of the calls that fail; the first call has the number 0.
    pub failing: &'a [u64],
    /// How many calls were made: a count that stays at 2^64 - 1.
    pub calls: u64,
    /// How many of them failed: a count that stays at 2^64 - 1.
    pub faults: u64,
    /// Whether one of them told the end.
    pub ended: bool,
}

impl<'a> Source for FailingSource<'a> {
    ghost left = { λ source. Some source.rest.now };

    ghost faults = { λ source. source.faults };

    ghost ended = { λ source. source.ended };

    fn read(&mut self, buffer: &mut [u8]) -> Result<usize, Failed>
        ensures bound { ReadsAtMost result buffer.new }
        ensures octets { ReadConsumes (Some self.old.rest.now) (Some self.new.rest.now) result buffer.new }
        ensures cause { HasCause self.old.faults self.new.faults result }
        ensures counts { CountsFault self.old.faults self.new.faults result }
        ensures end { self.new.ended ≡ (self.old.ended || tells_end result buffer.new) }
        ensures count { IfOk result (λ count. count ≡ min (length self.old.rest.now) (length buffer.old)) }
        ensures untouched { OnErr result (buffer.new ≡ buffer.old) }
        ensures as_listed { IsErr result ↔ Contains self.old.failing.now self.old.calls }
        ensures counted { self.new.calls ≡ risen self.old.calls }
        ensures same_list { self.new.failing.now ≡ self.old.failing.now }
    {
        let fails = self.failing.contains(&self.calls);
        self.calls = self.calls.saturating_add(1);
        if !fails {
            if let Ok(count) = self.rest.read(buffer) {
                self.ended = self.ended || (count == 0 && !buffer.is_empty());
                return Ok(count);
            }
        }
        self.faults = self.faults.saturating_add(1);
        Err(Failed)
    }
}

/// A sink that keeps all octets. It fails only where there is no memory to keep them, and counts that.
#[derive(Drop)]
pub struct OctetsSink {
    /// What was written.
    pub octets: Vec<u8>,
    /// How often there was no memory: a count that stays at 2^64 - 1.
    pub faults: u64,
}

impl OctetsSink {
    /// A sink with nothing written.
    pub fn new(alloc: Global) -> Self
        ensures empty { result.octets.items ≡ [] }
        ensures faultless { result.faults ≡ 0 }
    {
        OctetsSink {
            octets: Vec::new(alloc),
            faults: 0,
        }
    }
}

impl Sink for OctetsSink {
    ghost written = { λ sink. Some sink.octets.items };

    ghost faults = { λ sink. sink.faults };

    fn write(&mut self, octets: &[u8]) -> Result<usize, Failed>
        ensures whole { IfOk result (λ count. count ≡ length octets.now) }
        ensures fits { vec_len self.old.octets + length octets.now ≤ vec_capacity self.old.octets → IsOk result }
        ensures octets { WriteAppends (Some self.old.octets.items) (Some self.new.octets.items) result octets.now }
        ensures cause { HasCause self.old.faults self.new.faults result }
        ensures counts { CountsFault self.old.faults self.new.faults result }
    {
        if self.octets.extend_from_slice(octets).is_ok() {
            return Ok(octets.len());
        }
        self.faults = self.faults.saturating_add(1);
        Err(Failed)
    }
}

/// A sink that keeps octets, takes at most so many in a call, and whose calls of given numbers fail.
#[derive(Drop)]
pub struct FailingSink<'a> {
    /// What was written.
    pub octets: Vec<u8>,
    /// How many octets a call takes at most; a sink that takes none fails.
    pub piece: usize,
    /// The numbers of the calls that fail; the first call has the number 0.
    pub failing: &'a [u64],
    /// How many calls were made: a count that stays at 2^64 - 1.
    pub calls: u64,
    /// How many of them failed: a count that stays at 2^64 - 1.
    pub faults: u64,
}

impl<'a> Sink for FailingSink<'a> {
    ghost written = { λ sink. Some sink.octets.items };

    ghost faults = { λ sink. sink.faults };

    fn write(&mut self, octets: &[u8]) -> Result<usize, Failed>
        ensures bound { IfOk result (λ count. count ≤ length octets.now) }
        ensures progress { IfOk result (λ count. 0 < length octets.now → 0 < count) }
        ensures piece { IfOk result (λ count. count ≡ min (length octets.now) self.old.piece) }
        ensures octets { WriteAppends (Some self.old.octets.items) (Some self.new.octets.items) result octets.now }
        ensures cause { HasCause self.old.faults self.new.faults result }
        ensures counts { CountsFault self.old.faults self.new.faults result }
        ensures as_listed { Contains self.old.failing.now self.old.calls ⊎ (self.old.piece ≡ 0) → IsErr result }
        ensures fits { (Contains self.old.failing.now self.old.calls → ⊥) → 0 < self.old.piece
            → vec_len self.old.octets + min (length octets.now) self.old.piece ≤ vec_capacity self.old.octets → IsOk result }
        ensures counted { self.new.calls ≡ risen self.old.calls }
        ensures same_list { self.new.failing.now ≡ self.old.failing.now }
        ensures same_piece { self.new.piece ≡ self.old.piece }
    {
        let fails = self.failing.contains(&self.calls) || self.piece == 0;
        self.calls = self.calls.saturating_add(1);
        let count = octets.len().min(self.piece);
        if !fails && self.octets.extend_from_slice(&octets[..count]).is_ok() {
            return Ok(count);
        }
        self.faults = self.faults.saturating_add(1);
        Err(Failed)
    }
}
