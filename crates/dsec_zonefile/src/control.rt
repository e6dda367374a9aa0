//! Control entries: `$ORIGIN`, `$TTL` and `$INCLUDE` (RFC 1035 5.1, RFC 2308 4).

ghost use Rattle.std.specs.Prelude.{◌≡◌, map};
ghost use Rattle.dsec_spec.specs.Reading.{Reads};
ghost use Rattle.dsec_text.specs.Words.{word_view};
ghost use Rattle.dsec_zonefile.specs.Lines.{control_in, default_ttl_in, include_in, origin_in};
ghost use Rattle.dsec_word.specs.Words.{wants_memory};

use crate::entry::Entry;
use crate::setting::{Said, Setting};
use crate::word::{only_word, read_name, read_ttl};
use dsec_text::Word;
use dsec_word::ReadError;
use std::alloc::Global;

/// A control entry, by its first word and those after it.
pub fn read_control(
    alloc: Global,
    setting: &Setting,
    keyword: &[u8],
    words: &[Word<'_>],
) -> Result<Said, ReadError>
    ensures { Reads wants_memory (λ said. said) result (control_in setting.now keyword.now (map word_view words.now)) }
{
    if keyword == b"$ORIGIN".as_slice() {
        return read_origin(alloc, setting, words);
    }
    if keyword == b"$TTL".as_slice() {
        return read_default_ttl(words);
    }
    if keyword == b"$INCLUDE".as_slice() {
        return read_include(alloc, setting, words);
    }
    Err(ReadError::Bad)
}

/// The origin of the lines that follow.
fn read_origin(alloc: Global, setting: &Setting, words: &[Word<'_>]) -> Result<Said, ReadError>
    ensures { Reads wants_memory (λ said. said) result (origin_in setting.now (map word_view words.now)) }
{
    let Some(word) = only_word(words) else {
        return Err(ReadError::Bad);
    };
    let origin = read_name(alloc, &setting.origin, word)?;
    Ok(Said::Origin(origin))
}

/// The TTL of records that have none of their own.
fn read_default_ttl(words: &[Word<'_>]) -> Result<Said, ReadError>
    ensures { Reads wants_memory (λ said. said) result (default_ttl_in (map word_view words.now)) }
{
    let Some(word) = only_word(words) else {
        return Err(ReadError::Bad);
    };
    match read_ttl(word) {
        Some(ttl) => Ok(Said::Ttl(ttl)),
        None => Err(ReadError::Bad),
    }
}

/// The path of another text, and the origin in it.
fn read_include(alloc: Global, setting: &Setting, words: &[Word<'_>]) -> Result<Said, ReadError>
    ensures { Reads wants_memory (λ said. said) result (include_in setting.now (map word_view words.now)) }
{
    let Some((path, rest)) = words.split_first() else {
        return Err(ReadError::Bad);
    };
    let path = path.octets(alloc)?;
    if rest.is_empty() {
        return Ok(Said::Entry(Entry::Include { path, origin: None }));
    }
    let Some(word) = only_word(rest) else {
        return Err(ReadError::Bad);
    };
    let origin = Some(read_name(alloc, &setting.origin, word)?);
    Ok(Said::Entry(Entry::Include { path, origin }))
}
