//! Prints nodes: the standard input holds scripts, one after the other, and for each message of a script the program goes from the island of
//! its question's name down to the name, by the script's replies, and prints each node that it makes. A line that begins with `== ` stands
//! before each script; the LF before such a line is not the script's.
#![tactic(auto)]

mod scripts;
mod shown;
mod text;
mod way;

use crate::scripts::push_scripts;
use std::io;
use std::io::{Read, Write};

fn main(rt: HostRuntime) -> io::Result<()> {
    let mut text = Vec::new(rt.alloc());
    rt.stdin().lock().read_to_end(&mut text)?;
    let mut out = Vec::new(rt.alloc());
    match push_scripts(rt.alloc(), &mut out, &text) {
        Ok(()) => rt.stdout().write_all(&out),
        Err(_) => Err(io::Error::from(io::ErrorKind::OutOfMemory)),
    }
}
