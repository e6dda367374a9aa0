//! The octets that words write in a form.

ghost use Rattle.std.specs.Prelude.{ℕ, List, [], map};
ghost use Rattle.dsec_spec.specs.Layouts as layouts;
ghost use Rattle.dsec_spec.specs.Reading.{Reads};
ghost use Rattle.dsec_text.specs.Words as text;
ghost use Rattle.dsec_text.specs.Words.{word_view};
ghost use Rattle.dsec_wire.specs.Fields.{form_view, item_view, tail_view};
ghost use Rattle.dsec_zonefile.specs.Forms.{formed_in, item_in, items_in, tail_in};
ghost use Rattle.dsec_word.specs.Words.{wants_memory};
ghost use Rattle.dsec_zonefile.specs.Words.{added, base64_of, hex_of};

use crate::address::{ipv4, ipv6};
use crate::word::{join, read_name, read_number, strings};
use dsec_name::{Name, Octets};
use dsec_text::Word;
use dsec_wire::{Form, Item, Tail};
use dsec_word::{ReadError, read_base64, read_hex};
use std::alloc::Global;

/// Adds what a word writes as an item.
fn push_item(
    alloc: Global,
    origin: &Name,
    item: Item,
    word: &Word<'_>,
    out: &mut Vec<u8>,
) -> Result<(), ReadError>
    ensures { Reads wants_memory (λ _. out.new.items) result
        (added out.old.items (item_in origin.now (item_view item) (word_view word.now))) }
{
    match item {
        Item::Name => {
            let name = read_name(alloc, origin, word)?;
            name.compose(out)?;
            Ok(())
        }
        Item::Octet => push_octet(word, out),
        Item::Short => push_short(word, out),
        Item::Long => push_long(word, out),
        Item::Ipv4 => push_ipv4(word, out),
        Item::Ipv6 => push_ipv6(word, out),
    }
}

/// Adds a number of 8 bits.
fn push_octet(word: &Word<'_>, out: &mut Vec<u8>) -> Result<(), ReadError>
    ensures { Reads wants_memory (λ _. out.new.items) result
        (added out.old.items (item_in [] layouts.octet (word_view word.now))) }
{
    let Some(number) = read_number(word, 255) else {
        return Err(ReadError::Bad);
    };
    out.push(number as u8)?;
    Ok(())
}

/// Adds a number of 16 bits.
fn push_short(word: &Word<'_>, out: &mut Vec<u8>) -> Result<(), ReadError>
    ensures { Reads wants_memory (λ _. out.new.items) result
        (added out.old.items (item_in [] layouts.short (word_view word.now))) }
{
    let Some(number) = read_number(word, 65535) else {
        return Err(ReadError::Bad);
    };
    out.extend_from_slice(&(number as u16).to_be_bytes())?;
    Ok(())
}

/// Adds a number of 32 bits.
fn push_long(word: &Word<'_>, out: &mut Vec<u8>) -> Result<(), ReadError>
    ensures { Reads wants_memory (λ _. out.new.items) result
        (added out.old.items (item_in [] layouts.long (word_view word.now))) }
{
    let Some(number) = read_number(word, 4_294_967_295) else {
        return Err(ReadError::Bad);
    };
    out.extend_from_slice(&(number as u32).to_be_bytes())?;
    Ok(())
}

/// Adds an IPv4 address.
fn push_ipv4(word: &Word<'_>, out: &mut Vec<u8>) -> Result<(), ReadError>
    ensures { Reads wants_memory (λ _. out.new.items) result
        (added out.old.items (item_in [] layouts.ipv4 (word_view word.now))) }
{
    let Some(text) = word.plain() else {
        return Err(ReadError::Bad);
    };
    let Some(octets) = ipv4(text) else {
        return Err(ReadError::Bad);
    };
    out.extend_from_slice(&octets)?;
    Ok(())
}

/// Adds an IPv6 address.
fn push_ipv6(word: &Word<'_>, out: &mut Vec<u8>) -> Result<(), ReadError>
    ensures { Reads wants_memory (λ _. out.new.items) result
        (added out.old.items (item_in [] layouts.ipv6 (word_view word.now))) }
{
    let Some(text) = word.plain() else {
        return Err(ReadError::Bad);
    };
    let Some(octets) = ipv6(text) else {
        return Err(ReadError::Bad);
    };
    out.extend_from_slice(&octets)?;
    Ok(())
}

/// What the first words write as items, and the words after them.
fn read_items<'a, 'b>(
    alloc: Global,
    origin: &Name,
    items: &[Item],
    words: &'a [Word<'b>],
) -> Result<(Vec<u8>, &'a [Word<'b>]), ReadError>
    ensures { Reads {Y = List ℕ × List text.Word} wants_memory (λ read. (read.0.items, map word_view read.1.now)) result
        (items_in origin.now (map item_view items.now) (map word_view words.now)) }
{
    if words.len() < items.len() {
        return Err(ReadError::Bad);
    }
    let mut out = Vec::new(alloc);
    for index in 0..items.len() {
        push_item(alloc, origin, items[index], &words[index], &mut out)?;
    }
    let (_, rest) = words.split_at(items.len());
    Ok((out, rest))
}

/// What words write as a form's tail.
fn read_tail(alloc: Global, tail: Tail, words: &[Word<'_>]) -> Result<Octets, ReadError>
    ensures { Reads wants_memory (λ octets. octets) result (tail_in (tail_view tail) (map word_view words.now)) }
{
    if words.is_empty() {
        return match tail {
            Tail::Nothing => Ok(Octets::new(Vec::new(alloc))),
            Tail::Strings | Tail::Hex | Tail::Base64 => Err(ReadError::Bad),
        };
    }
    match tail {
        Tail::Nothing => Err(ReadError::Bad),
        Tail::Strings => Ok(Octets::new(strings(alloc, words)?)),
        Tail::Hex => hex_words(alloc, words),
        Tail::Base64 => base64_words(alloc, words),
    }
}

/// The octets that words write in hex.
pub fn hex_words(alloc: Global, words: &[Word<'_>]) -> Result<Octets, ReadError>
    ensures { Reads wants_memory (λ octets. octets) result (hex_of (map word_view words.now)) }
{
    let digits = join(alloc, words)?;
    read_hex(alloc, &digits)
}

/// The octets that words write in base64.
fn base64_words(alloc: Global, words: &[Word<'_>]) -> Result<Octets, ReadError>
    ensures { Reads wants_memory (λ octets. octets) result (base64_of (map word_view words.now)) }
{
    let digits = join(alloc, words)?;
    read_base64(alloc, &digits)
}

/// The octets that words write in a form.
pub fn read_formed(
    alloc: Global,
    origin: &Name,
    form: Form,
    words: &[Word<'_>],
) -> Result<Octets, ReadError>
    ensures { Reads wants_memory (λ octets. octets) result (formed_in origin.now (form_view form) (map word_view words.now)) }
{
    let (mut out, rest) = read_items(alloc, origin, form.items, words)?;
    let tail = read_tail(alloc, form.tail, rest)?;
    out.extend_from_slice(tail.as_slice())?;
    Ok(Octets::new(out))
}
