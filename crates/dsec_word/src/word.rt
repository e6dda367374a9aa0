//! What single words say: names, types, classes and octets.

ghost use Rattle.std.specs.Prelude.{◌≡◌, codes};
ghost use Rattle.std.specs.Option.{option_map};
ghost use Rattle.std.specs.Result.{result_ok};
ghost use Rattle.std.specs.Str.{str_eq_ignore_ascii_case};
ghost use Rattle.dsec_spec.specs.Names.{Labels};
ghost use Rattle.dsec_spec.specs.Reading.{Reads};
ghost use Rattle.dsec_number.specs.Words.{IsNumberOf, class_words, named_of, type_words};
ghost use Rattle.dsec_word.specs.Words.{base64_in, class_in, hex_in, name_in, number_after, rtype_in, text_of, wants_memory};

use crate::error::ReadError;
use base64::DecodeAllocError;
use base64::engine::general_purpose::STANDARD;
use dsec_name::{Name, NameError, Octets};
use dsec_number::{Class, Rtype};
use hex::FromHexError;
use std::alloc::Global;

/// The text that a word is.
fn text(word: &[u8]) -> Option<&str>
    ensures { option_map (λ text. text.now) result ≡ text_of word.now }
{
    match str::from_utf8(word) {
        Ok(text) => Some(text),
        Err(_) => None,
    }
}

/// The name that a word writes.
pub fn read_name(alloc: Global, word: &[u8]) -> Result<Name, ReadError>
    ensures { Reads {Y = Labels} wants_memory (λ name. name) result (name_in word.now) }
{
    let Some(text) = text(word) else {
        return Err(ReadError::Bad);
    };
    match Name::parse(alloc, text) {
        Ok(name) => Ok(name),
        Err(NameError::NoMemory) => Err(ReadError::NoMemory),
        Err(_) => Err(ReadError::Bad),
    }
}

/// The type that a word writes.
pub fn read_rtype(word: &[u8]) -> Option<Rtype>
    ensures { result ≡ rtype_in word.now }
{
    match text(word) {
        None => None,
        Some(text) => rtype_of(text),
    }
}

/// The type that a text writes.
fn rtype_of(text: &str) -> Option<Rtype>
    ensures { result ≡ number_after (codes "TYPE") (named_of type_words text.now) text.now }
{
    parse_rtype(text)
}

/// The same, in the words of `Rtype`.
fn parse_rtype(text: &str) -> Option<Rtype>
    ensures { IsNumberOf type_words (codes "TYPE") text.now result }
{
    text.parse::<Rtype>().ok()
}

/// The class that a word writes.
pub fn read_class(word: &[u8]) -> Option<Class>
    ensures { result ≡ class_in word.now }
{
    match text(word) {
        None => None,
        Some(text) => class_of(text),
    }
}

/// The class that a text writes.
fn class_of(text: &str) -> Option<Class>
    ensures { result ≡ number_after (codes "CLASS") (named_of class_words text.now) text.now }
{
    parse_class(text)
}

/// The same, in the words of `Class`.
fn parse_class(text: &str) -> Option<Class>
    ensures { IsNumberOf class_words (codes "CLASS") text.now result }
{
    text.parse::<Class>().ok()
}

/// The octets that a word writes in hex.
pub fn read_hex(alloc: Global, word: &[u8]) -> Result<Octets, ReadError>
    ensures { Reads wants_memory (λ octets. octets) result (hex_in word.now) }
{
    match hex::decode(alloc, word) {
        Ok(octets) => Ok(Octets::new(octets)),
        Err(FromHexError::OutOfMemory) => Err(ReadError::NoMemory),
        Err(_) => Err(ReadError::Bad),
    }
}

/// The octets that a word writes in base64.
pub fn read_base64(alloc: Global, word: &[u8]) -> Result<Octets, ReadError>
    ensures { Reads wants_memory (λ octets. octets) result (base64_in word.now) }
{
    match STANDARD.decode(alloc, word) {
        Ok(octets) => Ok(Octets::new(octets)),
        Err(DecodeAllocError::OutOfMemory) => Err(ReadError::NoMemory),
        Err(DecodeAllocError::DecodeError(_)) => Err(ReadError::Bad),
    }
}

/// Whether a word is another one, in either case of its letters.
pub fn is_word(word: &[u8], other: &[u8]) -> bool
    ensures { result ≡ str_eq_ignore_ascii_case word.now other.now }
{
    word.eq_ignore_ascii_case(other)
}
