//! Records in zone text: owner, TTL and class, type, data (RFC 1035 5.1).

ghost use Rattle.std.specs.Prelude.{◌≡◌, List, map};
ghost use Rattle.dsec_spec.specs.Names.{Labels};
ghost use Rattle.dsec_spec.specs.Reading.{Reads};
ghost use Rattle.dsec_text.specs.Words as text;
ghost use Rattle.dsec_text.specs.Words.{word_view};
ghost use Rattle.dsec_word.specs.Words.{wants_memory};
ghost use Rattle.dsec_zonefile.specs.Records.{optional, owner_in, record_in, ttl_and_class_in, typed_in};
ghost use Rattle.dsec_zonefile.specs.Words.{class_in, ttl_in};

use crate::data::read_data;
use crate::setting::Setting;
use crate::word::{read_class, read_name, read_rtype, read_ttl};
use dsec_name::Name;
use dsec_number::{Class, Ttl};
use dsec_text::Word;
use dsec_wire::Record;
use dsec_word::ReadError;
use std::alloc::Global;

/// The record that words say, in a line that begins with a blank or not.
pub fn read_record(
    alloc: Global,
    setting: &Setting,
    blank: bool,
    words: &[Word<'_>],
) -> Result<Record, ReadError>
    ensures { Reads wants_memory (λ it. it) result (record_in setting.now blank (map word_view words.now)) }
{
    let (owner, rest) = read_owner(alloc, setting, blank, words)?;
    let (ttl, class, rest) = ttl_and_class(rest);
    read_typed(alloc, setting, owner, ttl, class, rest)
}

/// The owner, and the words after it.
fn read_owner<'a, 'b>(
    alloc: Global,
    setting: &Setting,
    blank: bool,
    words: &'a [Word<'b>],
) -> Result<(Name, &'a [Word<'b>]), ReadError>
    ensures { Reads {Y = Labels × List text.Word} wants_memory (λ read. (read.0, map word_view read.1.now)) result
        (owner_in setting.now blank (map word_view words.now)) }
{
    if blank {
        return match &setting.before {
            Some(before) => Ok((before.owner.clone()?, words)),
            None => Err(ReadError::Bad),
        };
    }
    let Some((word, rest)) = words.split_first() else {
        return Err(ReadError::Bad);
    };
    let owner = read_name(alloc, &setting.origin, word)?;
    Ok((owner, rest))
}

/// TTL and class, in either order, and the words after them.
fn ttl_and_class<'a, 'b>(words: &'a [Word<'b>]) -> (Option<Ttl>, Option<Class>, &'a [Word<'b>])
    ensures { (result.0, result.1, map word_view result.2.now) ≡ ttl_and_class_in (map word_view words.now) }
{
    let (ttl, rest) = optional_ttl(words);
    let (class, rest) = optional_class(rest);
    if ttl.is_some() {
        return (ttl, class, rest);
    }
    let (ttl, rest) = optional_ttl(rest);
    (ttl, class, rest)
}

/// The TTL that the first word says, if it says one, and the words after it.
fn optional_ttl<'a, 'b>(words: &'a [Word<'b>]) -> (Option<Ttl>, &'a [Word<'b>])
    ensures { (result.0, map word_view result.1.now) ≡ optional ttl_in (map word_view words.now) }
{
    let Some((word, rest)) = words.split_first() else {
        return (None, words);
    };
    match read_ttl(word) {
        Some(ttl) => (Some(ttl), rest),
        None => (None, words),
    }
}

/// The class that the first word says, if it says one, and the words after it.
fn optional_class<'a, 'b>(words: &'a [Word<'b>]) -> (Option<Class>, &'a [Word<'b>])
    ensures { (result.0, map word_view result.1.now) ≡ optional class_in (map word_view words.now) }
{
    let Some((word, rest)) = words.split_first() else {
        return (None, words);
    };
    match read_class(word) {
        Some(class) => (Some(class), rest),
        None => (None, words),
    }
}

/// A record of this owner, TTL and class, by the words from the type on.
fn read_typed(
    alloc: Global,
    setting: &Setting,
    owner: Name,
    ttl: Option<Ttl>,
    class: Option<Class>,
    words: &[Word<'_>],
) -> Result<Record, ReadError>
    ensures { Reads wants_memory (λ it. it) result (typed_in setting.now owner ttl class (map word_view words.now)) }
{
    let Some((word, rest)) = words.split_first() else {
        return Err(ReadError::Bad);
    };
    let Some(rtype) = read_rtype(word) else {
        return Err(ReadError::Bad);
    };
    let Some(class) = setting.class_for(class) else {
        return Err(ReadError::Bad);
    };
    let rdata = read_data(alloc, &setting.origin, rtype, rest)?;
    Ok(Record::new(owner, class, setting.ttl_for(ttl), rdata))
}
