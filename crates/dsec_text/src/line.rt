//! The lines of zone text with a word (RFC 1035 5.1).

ghost use Rattle.std.specs.Prelude.{◌≡◌, ◌+◌, ◌<◌, ◌≤◌, length};
ghost use Rattle.dsec_text.specs.Finding.{Finds, IsPlaced};
ghost use Rattle.dsec_text.specs.Lines.{begins_with_blank as begins_blank};
ghost use Rattle.dsec_text.specs.declared.line.LineError.TheVariants as errors;

use crate::pass::pass_line;
use crate::word::Word;
use dsec_name::NoMemory;
use std::alloc::Global;

/// Where the first line with a word stands in a text.
#[derive(Clone, Copy, Debug, PartialEq, Eq)]
pub struct Span {
    /// How many line ends stand before it.
    pub before: usize,
    /// The place of its first octet.
    pub start: usize,
    /// The place after its last octet, which is the LF that ends it, where there is one.
    pub end: usize,
}

/// A line is refused: a place of it has no token, a `)` no `(`, or the text ends within parentheses.
#[derive(Clone, Copy, Debug, PartialEq, Eq)]
pub struct BadLine {
    /// How many line ends stand before it.
    pub before: usize,
}

/// Why no line was read.
#[derive(Clone, Copy, Debug, PartialEq, Eq)]
pub enum LineError {
    /// A line is refused.
    Bad(BadLine),
    /// There was no memory left, whatever the text.
    NoMemory,
}

impl From<NoMemory> for LineError {
    ghost from_gives = { λ _ error. error ≡ errors.NoMemory };

    fn from(_error: NoMemory) -> LineError {
        LineError::NoMemory
    }
}

/// A line with a word.
#[derive(Drop)]
pub struct Line<'a> {
    /// Its words, in order.
    pub words: Vec<Word<'a>>,
    /// Whether its first octet is a space or a tab, and so no word begins there.
    pub begins_with_blank: bool,
    /// Where it stands.
    pub span: Span,
    /// How many line ends it has, those within parentheses and the one that ends it.
    pub line_ends: usize,
}

/// What stands first in a text, after lines without a word.
#[derive(Drop)]
pub enum Found<'a> {
    /// A line with a word.
    Line(Line<'a>),
    /// The end of the text.
    End {
        /// How many line ends the text has.
        line_ends: usize,
    },
}

/// The first line of a text with a word; lines without a word are passed over. It is refused where the line is, or one that was
/// to be passed over. Each octet is read once, and memory taken for the line's words, which borrow their octets.
pub fn first_line(alloc: Global, text: &[u8]) -> Result<Found<'_>, LineError>
    ensures found { Finds text.now result }
    ensures placed { IsPlaced (length text.now) result }
{
    let mut rest = text;
    let mut start = 0;
    let mut before = 0;
    while !rest.is_empty() {
        let Some(passed) = pass_line(alloc, rest)? else {
            return Err(LineError::Bad(BadLine { before }));
        };
        let (line, after) = rest.split_at(passed.octets);
        if !passed.words.is_empty() {
            return Ok(Found::Line(Line {
                words: passed.words,
                begins_with_blank: begins_with_blank(line),
                span: Span {
                    before,
                    start,
                    end: start + passed.octets,
                },
                line_ends: passed.line_ends,
            }));
        }
        before += passed.line_ends;
        start += passed.octets;
        rest = after;
    }
    Ok(Found::End { line_ends: before })
}

/// Whether a line's first octet is a space or a tab.
fn begins_with_blank(line: &[u8]) -> bool
    ensures { result ≡ begins_blank line.now }
{
    match line.split_first() {
        None => false,
        Some((&octet, _)) => octet == b' ' || octet == b'\t',
    }
}
