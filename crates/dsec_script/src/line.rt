//! What a line says.

ghost use Rattle.std.specs.Prelude.{◌≡◌};
ghost use Rattle.dsec_spec.specs.Reading.{Reads};
ghost use Rattle.dsec_script.specs.Line.{kept_in, keyword_of, octets_in, reply_in, rest_of, seconds_in, zone_in};
ghost use Rattle.dsec_script.specs.Text.{words_of};
ghost use Rattle.dsec_word.specs.Words.{wants_memory};

use crate::text::{first_word, without_blanks};
use dsec_anchors::{AnchorError, read_anchors};
use dsec_name::{Name, Octets};
use dsec_number::{Class, Rtype};
use dsec_wire::Records;
use dsec_word::{ReadError, number, read_hex, read_name, read_rtype};
use std::alloc::Global;

/// The first word of a line.
#[derive(Clone, Copy, Debug, PartialEq, Eq)]
pub enum Keyword {
    /// `now`
    Now,
    /// `anchor`
    Anchor,
    /// `reply`
    Reply,
    /// `message`
    Message,
}

/// What a line says.
#[derive(Drop)]
pub enum Line {
    /// Nothing: it is empty, has blanks alone, or begins with `#`.
    Passed,
    /// The moment of the messages that follow, in seconds since 1970.
    Now(u64),
    /// Trust anchors: the records of zone text.
    Anchors(Records),
    /// What is replied to the question of a name and a type; none where it fails.
    Reply(Name, Rtype, Option<Octets>),
    /// A message to be validated.
    Message(Octets),
}

/// What a line's first word makes of it.
pub fn read_keyword(word: &[u8]) -> Option<Keyword>
    ensures { result ≡ keyword_of word.now }
{
    if word == b"now".as_slice() {
        return Some(Keyword::Now);
    }
    if word == b"anchor".as_slice() {
        return Some(Keyword::Anchor);
    }
    if word == b"reply".as_slice() {
        return Some(Keyword::Reply);
    }
    if word == b"message".as_slice() {
        return Some(Keyword::Message);
    }
    None
}

/// What stands after a keyword says.
pub fn read_rest(alloc: Global, keyword: Keyword, line: &[u8]) -> Result<Line, ReadError>
    ensures { Reads wants_memory (λ said. said) result (rest_of keyword line.now) }
{
    match keyword {
        Keyword::Now => match seconds(line) {
            Some(seconds) => Ok(Line::Now(seconds)),
            None => Err(ReadError::Bad),
        },
        Keyword::Anchor => match read_zone(alloc, line) {
            Ok(records) => Ok(Line::Anchors(records)),
            Err(error) => Err(error),
        },
        Keyword::Reply => read_reply(alloc, line),
        Keyword::Message => match read_octets(alloc, line) {
            Ok(octets) => Ok(Line::Message(octets)),
            Err(error) => Err(error),
        },
    }
}

/// The seconds after `now`.
fn seconds(line: &[u8]) -> Option<u64>
    ensures { result ≡ seconds_in (words_of line.now) }
{
    let (word, rest) = first_word(line)?;
    match first_word(rest) {
        Some(_) => None,
        None => number(word, u64::MAX),
    }
}

/// Octets in hex, as one word or none.
fn read_octets(alloc: Global, line: &[u8]) -> Result<Octets, ReadError>
    ensures { Reads wants_memory (λ octets. octets) result (octets_in (words_of line.now)) }
{
    match first_word(line) {
        None => Ok(Octets::new(Vec::new(alloc))),
        Some((word, rest)) => match first_word(rest) {
            Some(_) => Err(ReadError::Bad),
            None => read_hex(alloc, word),
        },
    }
}

/// What is replied.
fn read_kept(alloc: Global, line: &[u8]) -> Result<Option<Octets>, ReadError>
    ensures { Reads wants_memory (λ kept. kept) result (kept_in (words_of line.now)) }
{
    let Some((word, rest)) = first_word(line) else {
        return Ok(Some(Octets::new(Vec::new(alloc))));
    };
    if first_word(rest).is_some() {
        return Err(ReadError::Bad);
    }
    if word == b"fail".as_slice() {
        return Ok(None);
    }
    match read_hex(alloc, word) {
        Ok(octets) => Ok(Some(octets)),
        Err(error) => Err(error),
    }
}

/// The line after `reply`.
fn read_reply(alloc: Global, line: &[u8]) -> Result<Line, ReadError>
    ensures { Reads wants_memory (λ said. said) result (reply_in (words_of line.now)) }
{
    let Some((name, rest)) = first_word(line) else {
        return Err(ReadError::Bad);
    };
    let Some((rtype, rest)) = first_word(rest) else {
        return Err(ReadError::Bad);
    };
    let name = read_name(alloc, name)?;
    let Some(rtype) = read_rtype(rtype) else {
        return Err(ReadError::Bad);
    };
    let kept = read_kept(alloc, rest)?;
    Ok(Line::Reply(name, rtype, kept))
}

/// The records of the zone text after `anchor` and the blanks behind it.
fn read_zone(alloc: Global, line: &[u8]) -> Result<Records, ReadError>
    ensures { Reads wants_memory (λ records. records) result (zone_in line.now) }
{
    match read_anchors(alloc, Some(Class::IN), without_blanks(line)) {
        Ok(records) => Ok(Records::new(records)),
        Err(AnchorError::NoMemory) => Err(ReadError::NoMemory),
        Err(AnchorError::InplaceError(_) | AnchorError::ReadError) => Err(ReadError::Bad),
    }
}
