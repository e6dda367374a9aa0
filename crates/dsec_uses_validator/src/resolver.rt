//! An upstream of one's own, behind the trait `Upstream`.

ghost use Rattle.std.specs.Prelude.{None};

use dsec_name::Name;
use dsec_number::Rtype;
use dsec_outside::{AskError, Upstream};
use dsec_word::{ReadError, read_hex};
use std::alloc::Global;

/// Asks by a line `ask <name> <type>` on the standard output, and takes the next line of the standard input, in hex, as the reply.
#[derive(Drop)]
pub struct Resolver<'a> {
    /// The standard input and output.
    pub rt: &'a HostRuntime,
    /// How many questions were asked: a count that stays at 2^64 - 1.
    pub asked: u64,
    /// How many of them failed: a count that stays at 2^64 - 1.
    pub faults: u64,
}

/// What it answers is told by nothing, so that a contract says nothing of it.
impl<'a> Upstream for Resolver<'a> {
    ghost table = { λ _. None };

    ghost faults = { λ resolver. resolver.faults };

    ghost asked = { λ resolver. resolver.asked };

    ghost heard = { λ _. None };

    fn ask(&mut self, alloc: Global, name: &Name, rtype: Rtype) -> Result<Vec<u8>, AskError> {
        self.asked = self.asked.saturating_add(1);
        let mut line = String::new(alloc);
        let asked = println!(self.rt; "ask {name} {rtype}");
        // No octets where the question can't be written, and at the end of the input.
        let read = asked.and_then(|_| self.rt.read_line(&mut line));
        match (read.unwrap_or(0), read_hex(alloc, line.trim().as_bytes())) {
            (1.., Ok(reply)) => return Ok(reply.into_vec()),
            (1.., Err(ReadError::NoMemory)) => return Err(AskError::NoMemory),
            _ => self.faults = self.faults.saturating_add(1),
        }
        Err(AskError::Failed)
    }
}
