//! The lines of a text, and the words of a line.

ghost use Rattle.std.specs.Prelude.{◌≡◌, ◌∷◌, [], MatchOption};
ghost use Rattle.std.specs.Option.{option_map};
ghost use Rattle.dsec_bind.specs.Lines.{is_end as is_end_of, is_mark as is_mark_of, only, parts, uncommented as uncommented_of, words_of, worded_lines};
ghost use Rattle.dsec_spec.specs.Cuts.{cut_of};

/// What separates parts of a text.
#[derive(Clone, Copy)]
enum Mark {
    /// The LF of a line.
    LineEnd,
    /// The `;` before a comment.
    Comment,
    /// A space or tab between words.
    Blank,
}

/// What ends a stretch of octets.
#[derive(Clone, Copy)]
enum Until {
    /// A mark.
    Mark(Mark),
    /// Any octet but the mark.
    Other(Mark),
}

/// The only line of a text that has a word, up to its comment; none where none has one, or two have.
pub(crate) fn only_line(text: &[u8]) -> Option<&[u8]>
    ensures { option_map (λ line. words_of line.now) result ≡ only (worded_lines text.now) }
{
    let (line, rest) = worded_line(text)?;
    match worded_line(rest) {
        Some(_) => None,
        None => Some(line),
    }
}

/// The first line that has a word, up to its comment, and the text after it.
fn worded_line(text: &[u8]) -> Option<(&[u8], &[u8])>
    ensures { MatchOption result (worded_lines text.now ≡ [])
        (λ found. worded_lines text.now ≡ words_of found.0.now ∷ worded_lines found.1.now) }
{
    let mut rest = text;
    while let Some((line, after)) = first_part(rest, Mark::LineEnd) {
        let line = uncommented(line);
        if first_word(line).is_some() {
            return Some((line, after));
        }
        rest = after;
    }
    None
}

/// The line up to its comment.
fn uncommented(line: &[u8]) -> &[u8]
    ensures { result.now ≡ uncommented_of line.now }
{
    let (front, _) = cut(line, Until::Mark(Mark::Comment));
    front
}

/// The first word of a line, and the line after it; none where there is no word.
pub(crate) fn first_word(line: &[u8]) -> Option<(&[u8], &[u8])>
    ensures { MatchOption result (words_of line.now ≡ []) (λ found. words_of line.now ≡ found.0.now ∷ words_of found.1.now) }
{
    first_part(line, Mark::Blank)
}

/// The first part of a text between marks, and the text after it.
fn first_part(text: &[u8], mark: Mark) -> Option<(&[u8], &[u8])>
    ensures { MatchOption result (parts (is_mark_of mark) text.now ≡ [])
        (λ found. parts (is_mark_of mark) text.now ≡ found.0.now ∷ parts (is_mark_of mark) found.1.now) }
{
    let (_, rest) = cut(text, Until::Other(mark));
    if rest.is_empty() {
        return None;
    }
    Some(cut(rest, Until::Mark(mark)))
}

/// The octets before the first that ends them, and those from it on.
fn cut(octets: &[u8], until: Until) -> (&[u8], &[u8])
    ensures { (result.0.now, result.1.now) ≡ cut_of (is_end_of until) octets.now }
{
    let mut at = 0;
    while at < octets.len() {
        if is_end(octets[at], until) {
            return octets.split_at(at);
        }
        at += 1;
    }
    (octets, &[])
}

/// Whether an octet ends a stretch.
fn is_end(octet: u8, until: Until) -> bool
    ensures { result ≡ is_end_of until octet }
{
    match until {
        Until::Mark(mark) => is_mark(octet, mark),
        Until::Other(mark) => !is_mark(octet, mark),
    }
}

/// Whether an octet is such a mark.
fn is_mark(octet: u8, mark: Mark) -> bool
    ensures { result ≡ is_mark_of mark octet }
{
    match mark {
        Mark::LineEnd => octet == b'\n',
        Mark::Comment => octet == b';',
        Mark::Blank => octet == b' ' || octet == b'\t',
    }
}
