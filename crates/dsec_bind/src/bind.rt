//! DNSKEY records in BIND's text.

ghost use Rattle.std.specs.Prelude.{◌≡◌, IfErr, IfOk, Some, None};
ghost use Rattle.std.specs.Option.{option_map};
ghost use Rattle.dsec_spec.specs.Numbers.{DNSKEY, IN};
ghost use Rattle.dsec_spec.specs.Reading.{Reads};
ghost use Rattle.dsec_word.specs.Words.{wants_memory};
ghost use Rattle.dsec_bind.specs.KeyText.{after_type as after_type_of, bind_record, record_in, ttl_in};
ghost use Rattle.dsec_bind.specs.Lines.{words_of};

use crate::error::ParseDnskeyTextError;
use crate::key::read_key;
use crate::line::{first_word, only_line};
use dsec_name::NoMemory;
use dsec_number::{Class, Rtype, Ttl};
use dsec_wire::Record;
use dsec_word::{ReadError, number, read_class, read_name, read_rtype};
use std::alloc::Global;

/// The DNSKEY record that a text writes, as BIND keeps keys: one line of owner, TTL or none, class, `DNSKEY`,
/// flags, protocol, algorithm and key in base64; comments and blank lines may stand around it. The record is
/// of class IN whatever the text's class, and has TTL 0 where the text has none.
pub fn parse_from_bind(
    alloc: Global,
    text: &str,
) -> Result<Result<Record, ParseDnskeyTextError>, NoMemory>
    ensures record { IfOk result (λ read. IfOk read (λ it. bind_record text.now ≡ Some it)) }
    ensures refused { IfOk result (λ read. IfErr read (λ _. bind_record text.now ≡ None)) }
    ensures class { IfOk result (λ read. IfOk read (λ it. it.class ≡ IN)) }
    ensures rtype { IfOk result (λ read. IfOk read (λ it. it.rtype ≡ DNSKEY)) }
{
    match read_text(alloc, text.as_bytes()) {
        Ok(record) => Ok(Ok(record)),
        Err(ReadError::Bad) => Ok(Err(ParseDnskeyTextError)),
        Err(ReadError::NoMemory) => Err(NoMemory),
    }
}

/// The record that a text writes.
fn read_text(alloc: Global, text: &[u8]) -> Result<Record, ReadError>
    ensures value { Reads wants_memory (λ it. it) result (bind_record text.now) }
    ensures kind { IfOk result (λ it. (it.class ≡ IN) × (it.rtype ≡ DNSKEY)) }
{
    match only_line(text) {
        Some(line) => read_record(alloc, line),
        None => Err(ReadError::Bad),
    }
}

/// The record that a line writes.
fn read_record(alloc: Global, line: &[u8]) -> Result<Record, ReadError>
    ensures value { Reads wants_memory (λ it. it) result (record_in (words_of line.now)) }
    ensures kind { IfOk result (λ it. (it.class ≡ IN) × (it.rtype ≡ DNSKEY)) }
{
    let Some((owner, rest)) = first_word(line) else {
        return Err(ReadError::Bad);
    };
    let owner = read_name(alloc, owner)?;
    let (ttl, rest) = read_ttl(rest);
    let Some(rest) = after_type(rest) else {
        return Err(ReadError::Bad);
    };
    let rdata = read_key(alloc, rest)?;
    Ok(Record::new(owner, Class::IN, Ttl::from_secs(ttl), rdata))
}

/// The TTL at the front of a line, and the line after it; 0 where there is none.
fn read_ttl(line: &[u8]) -> (u32, &[u8])
    ensures { (result.0, words_of result.1.now) ≡ ttl_in (words_of line.now) }
{
    match first_word(line) {
        None => (0, line),
        Some((word, rest)) => match number(word, 4_294_967_295) {
            None => (0, line),
            Some(seconds) => (seconds as u32, rest),
        },
    }
}

/// The line after a class and the type DNSKEY.
fn after_type(line: &[u8]) -> Option<&[u8]>
    ensures { option_map (λ rest. words_of rest.now) result ≡ after_type_of (words_of line.now) }
{
    let (class, rest) = first_word(line)?;
    let (rtype, rest) = first_word(rest)?;
    let _class = read_class(class)?;
    if read_rtype(rtype)? == Rtype::DNSKEY {
        return Some(rest);
    }
    None
}
