//! The lines of a text, and the words of a line.

ghost use Rattle.std.specs.Prelude.{◌≡◌, ◌<◌, [], ◌∷◌, length, MatchOption};
ghost use Rattle.std.specs.Option.{option_map};
ghost use Rattle.dsec_script.specs.Text.{after_blanks, first_word_of, is_blank as is_blank_octet, is_line_end, lines_of, without_return as without_return_of, words_of};
ghost use Rattle.dsec_spec.specs.Cuts.{cut_of};

use memchr::{memchr, memchr2};

/// The first line of a text that isn't empty, and the text after it.
pub fn first_line(text: &[u8]) -> (&[u8], &[u8])
    requires { 0 < length text.now }
    ensures line { lines_of text.now ≡ result.0.now ∷ lines_of result.1.now }
    ensures shorter { length result.1.now < length text.now }
{
    let (line, rest) = cut_line(text);
    match rest {
        [] => (line, rest),
        [_, after @ ..] => (without_return(line), after),
    }
}

/// The first word of a line, and the line after it; none where there is no word.
pub fn first_word(line: &[u8]) -> Option<(&[u8], &[u8])>
    ensures words { MatchOption result (words_of line.now ≡ []) (λ found. words_of line.now ≡ found.0.now ∷ words_of found.1.now) }
    ensures cut { option_map (λ found. (found.0.now, found.1.now)) result ≡ first_word_of line.now }
{
    let rest = without_blanks(line);
    if rest.is_empty() {
        return None;
    }
    Some(cut_word(rest))
}

/// What stands in a line from its first word on.
pub fn without_blanks(line: &[u8]) -> &[u8]
    ensures { result.now ≡ after_blanks line.now }
{
    let mut at = 0;
    while at < line.len() {
        if !is_blank(line[at]) {
            let (_, rest) = line.split_at(at);
            return rest;
        }
        at += 1;
    }
    &[]
}

/// The octets before the first LF, and those from it on.
fn cut_line(text: &[u8]) -> (&[u8], &[u8])
    ensures { (result.0.now, result.1.now) ≡ cut_of is_line_end text.now }
{
    match memchr(b'\n', text) {
        Some(at) => text.split_at(at),
        None => (text, &[]),
    }
}

/// The octets before the first blank, and those from it on.
fn cut_word(line: &[u8]) -> (&[u8], &[u8])
    ensures { (result.0.now, result.1.now) ≡ cut_of is_blank_octet line.now }
{
    match memchr2(b' ', b'\t', line) {
        Some(at) => line.split_at(at),
        None => (line, &[]),
    }
}

/// Whether an octet stands between words.
fn is_blank(octet: u8) -> bool
    ensures { result ≡ is_blank_octet octet }
{
    octet == b' ' || octet == b'\t'
}

/// The line without a CR at its end.
fn without_return(line: &[u8]) -> &[u8]
    ensures { result.now ≡ without_return_of line.now }
{
    let length = line.len();
    if length == 0 {
        return line;
    }
    if line[length - 1] != b'\r' {
        return line;
    }
    &line[..length - 1]
}
