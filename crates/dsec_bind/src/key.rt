//! The keys that words write (RFC 4034 2.2).

ghost use Rattle.std.specs.Prelude.{◌≡◌, IfOk, List, ℕ};
ghost use Rattle.std.specs.List.{concat};
ghost use Rattle.std.specs.Option.{option_map};
ghost use Rattle.dsec_spec.specs.Numbers.{DNSKEY};
ghost use Rattle.dsec_spec.specs.Reading.{Reads};
ghost use Rattle.dsec_spec.specs.Records.{key_octets as key_octets_of};
ghost use Rattle.dsec_word.specs.Words.{wants_memory};
ghost use Rattle.dsec_bind.specs.KeyText.{key_data, numbers_in, public_key_in};
ghost use Rattle.dsec_bind.specs.Lines.{words_of};

use crate::line::first_word;
use dsec_name::Octets;
use dsec_number::Rtype;
use dsec_wire::Data;
use dsec_word::{ReadError, number, read_base64};
use std::alloc::{AllocError, Global};

/// The numbers of a key.
#[derive(Clone, Copy)]
struct Numbers {
    flags: u16,
    protocol: u8,
    algorithm: u8,
}

/// The data that the words of a line write as a key.
pub(crate) fn read_key(alloc: Global, line: &[u8]) -> Result<Data, ReadError>
    ensures value { Reads wants_memory (λ rdata. rdata.octets) result (key_data (words_of line.now)) }
    ensures rtype { IfOk result (λ rdata. rdata.rtype ≡ DNSKEY) }
{
    let Some((numbers, rest)) = read_numbers(line) else {
        return Err(ReadError::Bad);
    };
    let public_key = read_public_key(alloc, rest)?;
    let octets = key_octets(alloc, numbers, public_key.as_slice())?;
    if octets.len() > 65535 {
        return Err(ReadError::Bad);
    }
    Ok(Data::new(Rtype::DNSKEY, octets))
}

/// The numbers at the front of a line, and the line after them.
fn read_numbers(line: &[u8]) -> Option<(Numbers, &[u8])>
    ensures { option_map (λ read. (read.0, words_of read.1.now)) result ≡ numbers_in (words_of line.now) }
{
    let (flags, rest) = first_word(line)?;
    let (protocol, rest) = first_word(rest)?;
    let (algorithm, rest) = first_word(rest)?;
    let numbers = Numbers {
        flags: number(flags, 65535)? as u16,
        protocol: number(protocol, 255)? as u8,
        algorithm: number(algorithm, 255)? as u8,
    };
    Some((numbers, rest))
}

/// The octets that the words of a line write in base64; there is one word at least.
fn read_public_key(alloc: Global, line: &[u8]) -> Result<Octets, ReadError>
    ensures { Reads wants_memory (λ octets. octets) result (public_key_in (words_of line.now)) }
{
    if first_word(line).is_none() {
        return Err(ReadError::Bad);
    }
    let digits = join(alloc, line)?;
    read_base64(alloc, &digits)
}

/// The octets of all words of a line.
fn join(alloc: Global, line: &[u8]) -> Result<Vec<u8>, AllocError>
    ensures { IfOk result (λ octets. octets.items ≡ concat (words_of line.now)) }
{
    let mut out = Vec::new(alloc);
    let mut rest = line;
    while let Some((word, after)) = first_word(rest) {
        out.extend_from_slice(word)?;
        rest = after;
    }
    Ok(out)
}

/// A key's data (RFC 4034 2.1).
fn key_octets(alloc: Global, numbers: Numbers, public_key: &[u8]) -> Result<Octets, AllocError>
    ensures { IfOk result (λ octets. octets ≡ key_octets_of (record { flags = numbers.flags; protocol = numbers.protocol; algorithm = numbers.algorithm; public_key = public_key.now })) }
{
    let mut octets = Vec::from_slice(alloc, &numbers.flags.to_be_bytes())?;
    octets.extend_from_slice(&[numbers.protocol, numbers.algorithm])?;
    octets.extend_from_slice(public_key)?;
    Ok(Octets::new(octets))
}
