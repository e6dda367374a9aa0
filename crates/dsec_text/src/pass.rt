//! One line of zone text, passed token for token (RFC 1035 5.1).

ghost use Rattle.std.specs.Prelude.{◌≡◌, ◌++◌, ◌<◌, ◌≤◌, [], map, length, IfOk, OnOk};
ghost use Rattle.dsec_text.specs.Finding.{IsSized, PassesLine, line_ends_in};
ghost use Rattle.dsec_text.specs.Lines.{depth_after as depth_behind, ends_line as ends_line_at};
ghost use Rattle.dsec_text.specs.Words.{with_word, word_in as word_of, word_view};

use crate::token::{Kind, token};
use crate::word::{Word, word_in};
use dsec_name::NoMemory;
use std::alloc::Global;

/// A line that was passed.
#[derive(Drop)]
pub struct Passed<'a> {
    /// Its words, in order.
    pub words: Vec<Word<'a>>,
    /// How many octets it has, its LF among them.
    pub octets: usize,
    /// How many line ends it has.
    pub line_ends: usize,
}

/// The first line of a text, from its first octet to its last; none where it is refused.
pub fn pass_line(alloc: Global, text: &[u8]) -> Result<Option<Passed<'_>>, NoMemory>
    requires { 0 < length text.now }
    ensures passed { IfOk result (λ passed. PassesLine text.now passed) }
    ensures sized { IfOk result (λ passed. IsSized text.now passed) }
{
    let mut words = Vec::new(alloc);
    let mut rest = text;
    let mut octets = 0;
    let mut line_ends = 0;
    let mut depth = 0;
    while !rest.is_empty() {
        let (kind, size) = token(rest);
        let (front, after) = rest.split_at(size);
        let Some(next) = depth_after(depth, kind) else {
            return Ok(None);
        };
        push_word(&mut words, kind, front)?;
        rest = after;
        octets += size;
        line_ends += line_ends_of(kind);
        if ends_line(depth, kind) {
            return Ok(Some(Passed {
                words,
                octets,
                line_ends,
            }));
        }
        depth = next;
    }
    if depth > 0 {
        return Ok(None);
    }
    Ok(Some(Passed {
        words,
        octets,
        line_ends,
    }))
}

/// Adds the word that a token is, if it is one.
fn push_word<'a>(words: &mut Vec<Word<'a>>, kind: Kind, octets: &'a [u8]) -> Result<(), NoMemory>
    ensures { OnOk result (map word_view words.new.items ≡ map word_view words.old.items ++ with_word (word_of kind octets.now) []) }
{
    if let Some(word) = word_in(kind, octets) {
        words.push(word)?;
    }
    Ok(())
}

/// How many line ends a token has.
fn line_ends_of(kind: Kind) -> usize
    ensures count { result ≡ line_ends_in kind }
    ensures few { result ≤ 1 }
{
    match kind {
        Kind::LineEnd => 1,
        _ => 0,
    }
}

/// Whether a token ends its line.
fn ends_line(depth: usize, kind: Kind) -> bool
    ensures { result ≡ ends_line_at depth kind }
{
    match kind {
        Kind::LineEnd => depth == 0,
        _ => false,
    }
}

/// How many parentheses are open after a token; none where it may not stand here.
fn depth_after(depth: usize, kind: Kind) -> Option<usize>
    requires { depth < 18446744073709551615 }
    ensures { result ≡ depth_behind depth kind }
{
    match kind {
        Kind::Open => Some(depth + 1),
        Kind::Close => depth.checked_sub(1),
        Kind::Bad => None,
        Kind::Blank | Kind::Comment | Kind::LineEnd | Kind::Plain | Kind::Quoted => Some(depth),
    }
}
