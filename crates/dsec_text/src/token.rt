//! The tokens of zone text (RFC 1035 5.1).

ghost use Rattle.std.specs.Prelude.{◌≡◌, ◌+◌, ◌<◌, ◌≤◌, ◌∷◌, length};
ghost use Rattle.std.specs.List.{position, position_or_len};
ghost use Rattle.dsec_text.specs.Escapes.{is_line_end};
ghost use Rattle.dsec_text.specs.Tokens.{ends_quote as ends_quote_before, ends_word as ends_word_before, quoted_at, token_at, word_at};

use crate::escape::{front_size, is_between};

/// What stands at a place of zone text.
#[derive(Clone, Copy)]
pub enum Kind {
    /// A space or a tab.
    Blank,
    /// A comment, without the LF that ends it.
    Comment,
    /// LF.
    LineEnd,
    /// `(`
    Open,
    /// `)`
    Close,
    /// A word outside quotes.
    Plain,
    /// A word in quotes, and the quotes.
    Quoted,
    /// All that follows, since nothing else stands there.
    Bad,
}

/// The kind of the token at the front of a text, and how many octets it has.
pub fn token(text: &[u8]) -> (Kind, usize)
    requires { 0 < length text.now }
    ensures token { result ≡ token_at text.now }
    ensures some { 0 < result.1 }
    ensures within { result.1 ≤ length text.now }
{
    read_token(text)
}

/// The same, without what its size is.
fn read_token(text: &[u8]) -> (Kind, usize)
    requires { 0 < length text.now }
    ensures { result ≡ token_at text.now }
{
    let rest = &text[1..];
    match text[0] {
        b' ' | b'\t' => (Kind::Blank, 1),
        b'\n' => (Kind::LineEnd, 1),
        b'(' => (Kind::Open, 1),
        b')' => (Kind::Close, 1),
        b';' => (Kind::Comment, comment_size(rest) + 1),
        b'"' => quoted(rest),
        _ => word(text),
    }
}

/// How many octets stand before the first LF.
fn comment_size(text: &[u8]) -> usize
    ensures size { result ≡ position_or_len is_line_end text.now }
    ensures within { result ≤ length text.now }
{
    line_end(text).unwrap_or(text.len())
}

/// The place of the first LF.
fn line_end(text: &[u8]) -> Option<usize>
    ensures { result ≡ position is_line_end text.now }
{
    text.iter().position(|&octet| octet == b'\n')
}

/// The kind and size of the token at the front of a text that begins with an octet of a word.
fn word(text: &[u8]) -> (Kind, usize)
    ensures { result ≡ word_at text.now }
{
    let size = front_size(text, false);
    if !ends_word(&text[size..]) {
        return (Kind::Bad, text.len());
    }
    (Kind::Plain, size)
}

/// The kind and size of the token whose `"` stands before a text.
fn quoted(text: &[u8]) -> (Kind, usize)
    ensures { result ≡ quoted_at text.now }
{
    let size = front_size(text, true);
    if !ends_quote(&text[size..]) {
        return (Kind::Bad, text.len() + 1);
    }
    (Kind::Quoted, size + 2)
}

/// Whether a word may end before a text.
fn ends_word(text: &[u8]) -> bool
    ensures { result ≡ ends_word_before text.now }
{
    match text.split_first() {
        None => true,
        Some((&octet, _)) => is_between(octet),
    }
}

/// Whether a quoted word may end before a text, with `"`.
fn ends_quote(text: &[u8]) -> bool
    ensures { result ≡ ends_quote_before text.now }
{
    match text.split_first() {
        None => false,
        Some((&octet, rest)) => octet == b'"' && ends_word(rest),
    }
}
