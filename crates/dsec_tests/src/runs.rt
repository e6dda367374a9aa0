//! What `run` writes for words that name no command and for a source past its limit, and its status.

use dsec_answer::run;
use dsec_outside::{LIMIT, OctetsSink, OctetsSource, Sink, Source};
use std::alloc::Global;
use std::process::Abort;

/// What is written for words that name no command.
const USAGE: &str = "usage: dsec validate|sign|reply|ask|gen\n";

/// The words as strings.
pub(crate) fn owned(alloc: Global, words: &[&str]) -> Option<Vec<String>> {
    let mut strings = Vec::new(alloc);
    for word in words {
        let Ok(string) = String::from_str(alloc, word) else {
            return None;
        };
        if strings.push(string).is_err() {
            return None;
        }
    }
    Some(strings)
}

/// The status of a run.
pub(crate) fn status_of<S: Source, K: Sink>(
    alloc: Global,
    words: &[String],
    source: &mut S,
    sink: &mut K,
) -> u8 {
    run(alloc, words, source, sink)
}

/// Whether this is written where the command of these words is run, and this is the status.
fn writes(alloc: Global, words: &[&str], source: &[u8], want: &str, status: u8) -> bool {
    let Some(words) = owned(alloc, words) else {
        return false;
    };
    let mut sink = OctetsSink::new(alloc);
    let mut source = OctetsSource { rest: source };
    let found = status_of(alloc, &words, &mut source, &mut sink);
    found == status && sink.octets.as_slice() == want.as_bytes()
}

/// Whether this is refused of a script with blanks behind it that has so many octets.
fn is_refused(alloc: Global, size: usize, want: &str) -> bool {
    let mut source = Vec::new(alloc);
    source.extend_from_slice(b"now 1\nfoo\n#").is_ok()
        && source.resize(size, b' ').is_ok()
        && writes(alloc, &["validate"], &source, want, 3)
}

#[test]
fn refuses_a_source_past_its_limit(rt: HostRuntime) {
    assert!(rt; is_refused(rt.alloc(), LIMIT, "line 2: other\n"));
    assert!(rt; is_refused(rt.alloc(), LIMIT + 1, "line 3: size\n"));
}

/// Words that name no command, and what they show.
const WORDS: [(&str, &[&str]); 8] = [
    ("no word", &[]),
    ("another word", &["verify"]),
    ("a command that is left out", &["sign"]),
    ("a word too many", &["validate", "x"]),
    ("an empty word too many", &["validate", ""]),
    ("the word twice", &["validate", "validate"]),
    ("a letter in upper case", &["Validate"]),
    ("an empty word", &[""]),
];

fn assert_refused(rt: &impl Abort, alloc: Global, rows: &[(&str, &[&str])]) {
    for (shows, words) in rows {
        assert!(rt; writes(alloc, words, b"now 1\n", USAGE, 2), "{shows}");
    }
}

#[test]
fn refuses_words(rt: HostRuntime) {
    assert_refused(&rt, rt.alloc(), &WORDS);
}
