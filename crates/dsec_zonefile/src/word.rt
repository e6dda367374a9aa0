//! What single words of zone text say (RFC 1035 5.1).

ghost use Rattle.std.specs.Prelude.{◌≡◌, ◌≤◌, map, IfSome};
ghost use Rattle.std.specs.Option.{option_map};
ghost use Rattle.dsec_spec.specs.Names.{Labels};
ghost use Rattle.dsec_spec.specs.Reading.{Reads};
ghost use Rattle.dsec_text.specs.Words.{plain_of, word_view};
ghost use Rattle.dsec_word.specs.Words.{wants_memory};
ghost use Rattle.dsec_zonefile.specs.Words.{added, class_in, joined, name_in, number_in, only, rtype_in, string_in, ttl_in};

use dsec_name::{Name, NameError};
use dsec_number::{Class, Rtype, Ttl};
use dsec_text::Word;
use dsec_word::{ReadError, number};
use std::alloc::Global;

/// The number that a word writes, if it is at most `most`.
pub fn read_number(word: &Word<'_>, most: u64) -> Option<u64>
    ensures value { result ≡ number_in most (word_view word.now) }
    ensures bound { IfSome result (λ number. number ≤ most) }
{
    match word.plain() {
        None => None,
        Some(octets) => number(octets, most),
    }
}

/// The TTL that a word writes.
pub fn read_ttl(word: &Word<'_>) -> Option<Ttl>
    ensures { result ≡ ttl_in (word_view word.now) }
{
    match read_number(word, 4_294_967_295) {
        None => None,
        Some(seconds) => Some(Ttl::from_secs(seconds as u32)),
    }
}

/// The class that a word writes.
pub fn read_class(word: &Word<'_>) -> Option<Class>
    ensures { result ≡ class_in (word_view word.now) }
{
    match word.plain() {
        None => None,
        Some(octets) => dsec_word::read_class(octets),
    }
}

/// The type that a word writes.
pub fn read_rtype(word: &Word<'_>) -> Option<Rtype>
    ensures { result ≡ rtype_in (word_view word.now) }
{
    match word.plain() {
        None => None,
        Some(octets) => dsec_word::read_rtype(octets),
    }
}

/// The name that a word writes, relative to an origin.
pub fn read_name(alloc: Global, origin: &Name, word: &Word<'_>) -> Result<Name, ReadError>
    ensures { Reads {Y = Labels} wants_memory (λ name. name) result (name_in origin.now (word_view word.now)) }
{
    if word.quoted {
        return Err(ReadError::Bad);
    }
    if word.written == b"@".as_slice() {
        return Ok(origin.clone()?);
    }
    match Name::parse_in(alloc, word.written, origin) {
        Ok(name) => Ok(name),
        Err(NameError::NoMemory) => Err(ReadError::NoMemory),
        Err(_) => Err(ReadError::Bad),
    }
}

/// Adds a string of at most 255 octets, behind their number (RFC 1035 3.3).
pub fn push_string(alloc: Global, word: &Word<'_>, out: &mut Vec<u8>) -> Result<(), ReadError>
    ensures { Reads wants_memory (λ _. out.new.items) result (added out.old.items (string_in (word_view word.now))) }
{
    let octets = word.octets(alloc)?;
    if octets.len() > 255 {
        return Err(ReadError::Bad);
    }
    out.push(octets.len() as u8)?;
    out.extend_from_slice(octets.as_slice())?;
    Ok(())
}

/// The strings of words.
pub fn strings(alloc: Global, words: &[Word<'_>]) -> Result<Vec<u8>, ReadError>
    ensures { Reads wants_memory (λ octets. octets.items) result (joined string_in (map word_view words.now)) }
{
    let mut out = Vec::new(alloc);
    for word in words {
        push_string(alloc, word, &mut out)?;
    }
    Ok(out)
}

/// The octets of words, joined.
pub fn join(alloc: Global, words: &[Word<'_>]) -> Result<Vec<u8>, ReadError>
    ensures { Reads wants_memory (λ octets. octets.items) result (joined plain_of (map word_view words.now)) }
{
    let mut out = Vec::new(alloc);
    for word in words {
        push_plain(word, &mut out)?;
    }
    Ok(out)
}

/// Adds the octets of a word without quotes and escapes.
fn push_plain(word: &Word<'_>, out: &mut Vec<u8>) -> Result<(), ReadError>
    ensures { Reads wants_memory (λ _. out.new.items) result (added out.old.items (plain_of (word_view word.now))) }
{
    let Some(octets) = word.plain() else {
        return Err(ReadError::Bad);
    };
    out.extend_from_slice(octets)?;
    Ok(())
}

/// The only word.
pub fn only_word<'a, 'b>(words: &'a [Word<'b>]) -> Option<&'a Word<'b>>
    ensures { option_map (λ word. word_view word.now) result ≡ only (map word_view words.now) }
{
    match words {
        [word] => Some(word),
        _ => None,
    }
}
