//! The hash that a label writes, in base32hex (RFC 4648 7, RFC 5155 3.3).

ghost use Rattle.std.specs.Prelude.{◌≡◌, ◌↔◌, ◌⊎◌, ◌≤◌, ◌<◌, ◌+◌, ◌*◌, ◌/◌, ◌%◌, ◌^◌, length, IfOk, IfSome, IsErr, None, Some};
ghost use Rattle.std.specs.Option.{option_map};
ghost use Rattle.dsec_nsec3_hash.specs.Octets.{items_of};
ghost use Rattle.dsec_spec.specs.Base32hex.{digit_of, octets_in_base32hex};

use crate::error::LabelToHashError;
use arrayvec::ArrayVec;
use dsec_sorted::OwnerHash;

/// The octets that a hash has at most (RFC 5155 3.2).
const MAX_HASH: usize = 255;

/// The characters that write so many octets at most.
const MAX_CHARACTERS: usize = 409;

/// The hash that a label writes, in letters of either case and without padding. Refused is what isn't base32hex, and what
/// writes more octets than a hash has, which is longer than a label.
pub fn nsec3_label_to_hash(label: &[u8]) -> Result<OwnerHash, LabelToHashError>
    ensures hash { IfOk result (λ hash. octets_in_base32hex label.now ≡ Some hash) }
    ensures refused { IsErr result ↔ ((octets_in_base32hex label.now ≡ None) ⊎ (409 < length label.now)) }
{
    if label.len() > MAX_CHARACTERS {
        return Err(LabelToHashError);
    }
    match octets_of(label) {
        Some(octets) => Ok(owner_hash(&octets)),
        None => Err(LabelToHashError),
    }
}

/// These octets as the hash of an owner.
fn owner_hash(octets: &ArrayVec<u8, MAX_HASH>) -> OwnerHash
    ensures { result ≡ octets.now.items }
{
    OwnerHash::from_octets(octets.as_slice()).unwrap()
}

/// The octets that a label writes, five bits a character. Fewer than five bits may be left over, and are dropped.
fn octets_of(label: &[u8]) -> Option<ArrayVec<u8, MAX_HASH>>
    requires { length label.now ≤ 409 }
    ensures { option_map items_of result ≡ octets_in_base32hex label.now }
{
    let mut octets = ArrayVec::<u8, MAX_HASH>::new();
    let mut held: u16 = 0;
    let mut bits: u16 = 0;
    for character in label {
        let five = digit(*character)?;
        let value = held * 32 + five;
        if bits < 3 {
            held = value;
            bits += 5;
        } else {
            bits -= 3;
            octets.push(upper(value, bits));
            held = lower(value, bits);
        }
    }
    if bits < 5 { Some(octets) } else { None }
}

/// The five bits of a character.
fn digit(character: u8) -> Option<u16>
    ensures digit { result ≡ digit_of character }
    ensures small { IfSome result (λ d. d < 32) }
{
    match character {
        b'0'..=b'9' => Some(u16::from(character - b'0')),
        b'A'..=b'V' => Some(u16::from(character - b'A') + 10),
        b'a'..=b'v' => Some(u16::from(character - b'a') + 10),
        _ => None,
    }
}

/// The octet above so many bits.
#[tactic(auto, using(crate::proofs::LabelLaws::upper_below))]
fn upper(value: u16, bits: u16) -> u8
    requires small { value < 2 ^ bits * 256 }
    requires few { bits < 8 }
    ensures { result ≡ value / 2 ^ bits }
{
    (value >> bits) as u8
}

/// The bits below it.
fn lower(value: u16, bits: u16) -> u16
    requires { bits < 8 }
    ensures { result ≡ value % 2 ^ bits }
{
    value % (1 << bits)
}
