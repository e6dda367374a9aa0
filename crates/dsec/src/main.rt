//! The program: `run` over the standard input and output.
#![tactic(auto)]

use dsec_answer::run;
use dsec_outside::{Reading, Writing};
use std::alloc::AllocError;
use std::env;
use std::io::ErrorKind;
use std::process::ExitCode;

/// The words after the program's name; none where a word isn't UTF-8, for no command has such a word.
fn words_of(rt: &HostRuntime) -> Result<Vec<String>, AllocError> {
    let mut words = Vec::new(rt.alloc());
    match env::args(rt) {
        Ok(args) => {
            for word in args.skip(1) {
                words.push(word)?;
            }
        }
        Err(error) => {
            if error.kind() == ErrorKind::OutOfMemory {
                return Err(AllocError);
            }
        }
    }
    Ok(words)
}

fn main(rt: HostRuntime) -> ExitCode {
    let alloc = rt.alloc();
    let Ok(words) = words_of(&rt) else {
        return ExitCode::from(6);
    };
    let mut source = Reading {
        inner: rt.stdin(),
        faults: 0,
        ended: false,
    };
    let mut sink = Writing {
        inner: rt.stdout(),
        faults: 0,
    };
    ExitCode::from(run(alloc, &words, &mut source, &mut sink))
}
