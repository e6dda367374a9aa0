//! Std's readers and writers as a source and a sink. What a real file, terminal or stream holds is not
//! proved: here is the trusted edge, and it only counts the errors.

use crate::sink::Sink;
use crate::source::{Failed, Source};
use std::io::{Read, Write};

/// A reader of std with its errors counted.
#[derive(Drop)]
pub struct Reading<R> {
    /// The reader.
    pub inner: R,
    /// How many reads failed: a count that stays at 2^64 - 1.
    pub faults: u64,
    /// Whether a read told the end.
    pub ended: bool,
}

impl<R: Read> Source for Reading<R> {
    ghost left = { λ source. R.remaining source.inner };

    ghost faults = { λ source. source.faults };

    ghost ended = { λ source. source.ended };

    fn read(&mut self, buffer: &mut [u8]) -> Result<usize, Failed> {
        match self.inner.read(buffer) {
            Ok(count) => {
                self.ended = self.ended || (count == 0 && !buffer.is_empty());
                Ok(count)
            }
            Err(_) => {
                self.faults = self.faults.saturating_add(1);
                Err(Failed)
            }
        }
    }
}

/// A writer of std with its errors counted. A write that takes nothing of a piece is an error.
#[derive(Drop)]
pub struct Writing<W> {
    /// The writer.
    pub inner: W,
    /// How many writes failed: a count that stays at 2^64 - 1.
    pub faults: u64,
}

impl<W: Write> Sink for Writing<W> {
    ghost written = { λ sink. W.contents sink.inner };

    ghost faults = { λ sink. sink.faults };

    fn write(&mut self, octets: &[u8]) -> Result<usize, Failed> {
        match self.inner.write(octets) {
            Ok(count) if count > 0 || octets.is_empty() => Ok(count),
            _ => {
                self.faults = self.faults.saturating_add(1);
                Err(Failed)
            }
        }
    }
}
