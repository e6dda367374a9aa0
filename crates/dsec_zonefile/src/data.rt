//! A record's data in zone text (RFC 1035 5.1, RFC 3597 5).

ghost use Rattle.std.specs.Prelude.{◌≡◌, map, IfOk};
ghost use Rattle.dsec_spec.specs.Reading.{Reads};
ghost use Rattle.dsec_text.specs.Words.{word_view};
ghost use Rattle.dsec_zonefile.specs.Data.{data_in, generic_in, own_form_in, written_in};
ghost use Rattle.dsec_word.specs.Words.{wants_memory};

use crate::item::{hex_words, read_formed};
use crate::word::read_number;
use dsec_name::{Name, Octets};
use dsec_number::Rtype;
use dsec_text::Word;
use dsec_wire::{Data, written_form};
use dsec_word::ReadError;
use std::alloc::Global;

/// The data that words write; names in them are relative to the origin.
pub fn read_data(
    alloc: Global,
    origin: &Name,
    rtype: Rtype,
    words: &[Word<'_>],
) -> Result<Data, ReadError>
    ensures value { Reads wants_memory (λ rdata. rdata.octets) result (data_in origin.now rtype (map word_view words.now)) }
    ensures rtype { IfOk result (λ rdata. rdata.rtype ≡ rtype) }
{
    let octets = read_written(alloc, origin, rtype, words)?;
    if !Data::is_readable(rtype, octets.as_slice()) {
        return Err(ReadError::Bad);
    }
    Ok(Data::new(rtype, octets))
}

/// The octets that words write as data, in the generic form or the type's own.
fn read_written(
    alloc: Global,
    origin: &Name,
    rtype: Rtype,
    words: &[Word<'_>],
) -> Result<Octets, ReadError>
    ensures { Reads wants_memory (λ octets. octets) result (written_in origin.now rtype (map word_view words.now)) }
{
    if let Some((word, rest)) = words.split_first() {
        if word.is_generic_mark() {
            return read_generic(alloc, rest);
        }
    }
    read_own_form(alloc, origin, rtype, words)
}

/// The generic form, after its mark: a length, and so many octets in hex.
fn read_generic(alloc: Global, words: &[Word<'_>]) -> Result<Octets, ReadError>
    ensures { Reads wants_memory (λ octets. octets) result (generic_in (map word_view words.now)) }
{
    let Some((size, rest)) = words.split_first() else {
        return Err(ReadError::Bad);
    };
    let Some(size) = read_number(size, 65535) else {
        return Err(ReadError::Bad);
    };
    let octets = hex_words(alloc, rest)?;
    if octets.len() as u64 != size {
        return Err(ReadError::Bad);
    }
    Ok(octets)
}

/// The form of the type.
fn read_own_form(
    alloc: Global,
    origin: &Name,
    rtype: Rtype,
    words: &[Word<'_>],
) -> Result<Octets, ReadError>
    ensures { Reads wants_memory (λ octets. octets) result (own_form_in origin.now rtype (map word_view words.now)) }
{
    match written_form(rtype) {
        Some(form) => read_formed(alloc, origin, form, words),
        None => Err(ReadError::Bad),
    }
}
