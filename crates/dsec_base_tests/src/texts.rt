//! Lines of zone text that are long: what stands on them, and that reading them takes neither stack nor too much time. What short
//! ones say, whole zone texts show.

use dsec_text::{Found, LineError, first_line};
use std::alloc::Global;
use std::test::Fail;

/// A piece, so many times, and an end.
fn repeated(alloc: Global, piece: &[u8], count: usize, end: &[u8]) -> Result<Vec<u8>, Fail> {
    let mut text = Vec::new(alloc);
    for _ in 0..count {
        text.extend_from_slice(piece)?;
    }
    text.extend_from_slice(end)?;
    Ok(text)
}

/// How many words the first line of a text has, and how many ends of lines stand before it; none where it is bad.
fn counts(alloc: Global, text: &[u8]) -> Result<Option<(usize, usize)>, Fail> {
    match first_line(alloc, text) {
        Ok(Found::Line(line)) => Ok(Some((line.words.len(), line.span.before))),
        Ok(Found::End { line_ends }) => Ok(Some((0, line_ends))),
        Err(LineError::Bad(_)) => Ok(None),
        Err(LineError::NoMemory) => Err(Fail::new("out of memory")),
    }
}

/// Pieces, ends, and the counts of half a million pieces before the end.
const LINES: [(&[u8], &[u8], Option<(usize, usize)>); 6] = [
    (b"(", b"", None),
    (b"(\n", b"a", None),
    (b"()", b"a", Some((1, 0))),
    (b"a", b"", Some((1, 0))),
    (b"a ", b"\nb", Some((500_000, 0))),
    (b"\n", b"a", Some((1, 500_000))),
];

fn has_counts(
    alloc: Global,
    piece: &[u8],
    end: &[u8],
    want: Option<(usize, usize)>,
) -> Result<bool, Fail> {
    let text = repeated(alloc, piece, 500_000, end)?;
    Ok(counts(alloc, &text)? == want)
}

#[test]
fn lines_have_any_length(rt: HostRuntime) -> Result<(), Fail> {
    for (piece, end, want) in LINES.iter() {
        assert!(rt; has_counts(rt.alloc(), piece, end, *want)?);
    }
    Ok(())
}
