//! Signs the zone of a text from the standard input by NSEC, with a signer of its own, and writes it.
#![tactic(auto)]

mod device;
mod keys;
mod refusal;
mod signing;
mod writing;

use anyhow::Result;
use dsec_outside::Writing;
use std::io;
use writing::write;

fn main(rt: HostRuntime) -> Result<()> {
    let alloc = rt.alloc();
    let text = io::read_to_string(alloc, rt.stdin())?;
    let mut sink = Writing {
        inner: rt.stdout(),
        faults: 0,
    };
    write(alloc, text.as_bytes(), &mut sink)
}
