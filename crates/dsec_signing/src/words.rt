//! The words of the command.

ghost use Rattle.std.specs.Prelude.{◌≡◌, ◌≤◌, List, length, map, string_bytes, IfOk, IfSome};
ghost use Rattle.dsec_spec.specs.Reading.{Reads};
ghost use Rattle.dsec_signing.specs.Words.{denial_in, key_by, key_in, moment_in, sign_in, words_in};
ghost use Rattle.dsec_word.specs.Words.{wants_memory};

use dsec_name::Name;
use dsec_number::{SecurityAlgorithm, Timestamp};
use dsec_rrsig::StandInKey;
use dsec_wire::Dnskey;
use dsec_word::{ReadError, number, read_hex, read_name};
use std::alloc::Global;

/// How many octets a key has at most.
const MAX_KEY: usize = 64;

/// A key for zone data and a secure entry point (RFC 4034 2.1.1).
pub(crate) const FLAGS: u16 = 257;

/// The protocol of every DNSKEY record (RFC 4034 2.1.2).
const PROTOCOL: u8 = 3;

/// How a signed zone denies what it hasn't.
#[derive(Clone, Copy, Debug, PartialEq, Eq)]
pub enum Denial {
    /// By NSEC records (RFC 4034 4).
    Nsec,
    /// By NSEC3 records, without iterations and salt (RFC 5155, RFC 9276 3.1).
    Nsec3,
}

/// What the words of the command say.
#[derive(Drop)]
pub struct SignWords {
    /// The zone's apex.
    pub apex: Name,
    /// The key of the stand-in for signatures, one for zone data (RFC 4034 2.1).
    pub key: StandInKey,
    /// From when on signatures count.
    pub inception: Timestamp,
    /// Up to when they count.
    pub expiration: Timestamp,
    /// How the zone denies what it hasn't.
    pub denial: Denial,
}

/// What the words say, if they are `sign`, the apex, the key in hex, inception and expiration in decimal, and `nsec` or `nsec3`.
pub fn sign_words(alloc: Global, words: &[String]) -> Result<SignWords, ReadError>
    ensures exact { Reads wants_memory (λ said. said) result (sign_in (map (λ w. string_bytes w) words.now)) }
    ensures key { IfOk result (λ said. length said.key.public_key ≤ 64) }
{
    match words {
        [command, apex, key, inception, expiration, denial] => {
            if command.as_str() != "sign" {
                return Err(ReadError::Bad);
            }
            read_words(
                alloc,
                apex.as_bytes(),
                key.as_bytes(),
                inception.as_bytes(),
                expiration.as_bytes(),
                denial.as_bytes(),
            )
        }
        _ => Err(ReadError::Bad),
    }
}

/// What the words after `sign` say.
fn read_words(
    alloc: Global,
    apex: &[u8],
    key: &[u8],
    inception: &[u8],
    expiration: &[u8],
    denial: &[u8],
) -> Result<SignWords, ReadError>
    ensures exact { Reads wants_memory (λ said. said) result (words_in apex.now key.now inception.now expiration.now denial.now) }
    ensures key { IfOk result (λ said. length said.key.public_key ≤ 64) }
{
    let apex = read_name(alloc, apex)?;
    let key = read_key(alloc, key)?;
    let Some(inception) = read_moment(inception) else {
        return Err(ReadError::Bad);
    };
    let Some(expiration) = read_moment(expiration) else {
        return Err(ReadError::Bad);
    };
    let Some(denial) = read_denial(denial) else {
        return Err(ReadError::Bad);
    };
    Ok(SignWords {
        apex,
        key,
        inception,
        expiration,
        denial,
    })
}

/// A key in hex.
fn read_key(alloc: Global, word: &[u8]) -> Result<StandInKey, ReadError>
    ensures exact { Reads wants_memory (λ key. key) result (key_in word.now) }
    ensures key { IfOk result (λ key. length key.public_key ≤ 64) }
{
    let octets = read_hex(alloc, word)?;
    match key_of(octets.as_slice()) {
        Some(key) => Ok(key),
        None => Err(ReadError::Bad),
    }
}

/// The key of these octets, if there are 1 to 64.
fn key_of(octets: &[u8]) -> Option<StandInKey>
    ensures exact { result ≡ key_by octets.now }
    ensures key { IfSome result (λ key. length key.public_key ≤ 64) }
{
    if octets.is_empty() || octets.len() > MAX_KEY {
        return None;
    }
    let dnskey = Dnskey {
        flags: FLAGS,
        protocol: PROTOCOL,
        algorithm: SecurityAlgorithm::ECDSAP256SHA256,
        public_key: octets,
    };
    StandInKey::from_dnskey(&dnskey).ok()
}

/// A moment.
fn read_moment(word: &[u8]) -> Option<Timestamp>
    ensures { result ≡ moment_in word.now }
{
    match number(word, 0xffff_ffff) {
        Some(seconds) => Some(Timestamp::from_int(seconds as u32)),
        None => None,
    }
}

/// How a zone denies.
fn read_denial(word: &[u8]) -> Option<Denial>
    ensures { result ≡ denial_in word.now }
{
    if word == b"nsec".as_slice() {
        return Some(Denial::Nsec);
    }
    if word == b"nsec3".as_slice() {
        return Some(Denial::Nsec3);
    }
    None
}
