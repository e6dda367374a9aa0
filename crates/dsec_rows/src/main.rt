//! Runs the scripts that the standard input holds, one after the other, and writes for each what `run` writes, and its status.
//! A line that begins with `== ` stands before each script; the LF before such a line is not the script's. Where a script's first
//! line begins with `$ `, the words of the run stand behind that, and the source is what comes after the line; else they are `validate`.
#![tactic(auto)]

use dsec_answer::run;
use dsec_outside::{OctetsSink, OctetsSource};
use std::alloc::Global;
use std::io;
use std::io::{BufRead, Write};

/// Writes what `run` writes for a script, and its status.
fn write_outcome<W: Write>(alloc: Global, script: &[u8], out: &mut W) -> io::Result<()> {
    let (line, source) = split_words(script);
    let words = words_of(alloc, line)?;
    let mut sink = OctetsSink::new(alloc);
    let status = run(alloc, &words, &mut OctetsSource { rest: source }, &mut sink);
    out.write_all(&sink.octets)?;
    writeln!(out, "status {status}")
}

/// The words of a script in one line, and its source.
fn split_words(script: &[u8]) -> (&[u8], &[u8]) {
    let Some(behind) = script.strip_prefix(b"$ ".as_slice()) else {
        return (b"validate", script);
    };
    match behind.iter().position(|octet| *octet == b'\n') {
        Some(at) => (&behind[..at], &behind[at + 1..]),
        None => (behind, b""),
    }
}

/// The words of a line; between two there is one blank.
fn words_of(alloc: Global, line: &[u8]) -> io::Result<Vec<String>> {
    let mut words = Vec::new(alloc);
    for word in line.split(|octet| *octet == b' ') {
        words.push(String::from_utf8_lossy(alloc, word)?)?;
    }
    Ok(words)
}

/// Runs the scripts of a text, which begins with a heading.
fn write_outcomes<R: BufRead + Drop, W: Write>(
    alloc: Global,
    text: R,
    out: &mut W,
) -> io::Result<()> {
    let mut script = Vec::new(alloc);
    let mut is_first = true;
    for line in text.split(alloc, b'\n') {
        let line = line?;
        if line.starts_with(b"== ") {
            if !is_first {
                write_outcome(alloc, without_last(&script), out)?;
            }
            is_first = false;
            script = Vec::new(alloc);
            out.write_all(&line)?;
            out.write_all(b"\n")?;
        } else {
            script.extend_from_slice(&line)?;
            script.push(b'\n')?;
        }
    }
    write_outcome(alloc, without_last(&script), out)
}

/// The octets without the last.
fn without_last(octets: &[u8]) -> &[u8] {
    match octets.split_last() {
        Some((_, front)) => front,
        None => octets,
    }
}

fn main(rt: HostRuntime) -> io::Result<()> {
    let alloc = rt.alloc();
    let mut out = rt.stdout();
    write_outcomes(alloc, rt.stdin().lock(), &mut out)
}
