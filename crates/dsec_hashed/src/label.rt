//! A hash as a label (RFC 5155 3, RFC 4648 7).

ghost use Rattle.std.specs.Prelude.{◌≡◌, ◌++◌, ◌<◌, ◌/◌, ◌%◌, ◌^◌, length, map, OnOk};
ghost use Rattle.dsec_spec.specs.Base32hex.{base32hex, character_of, digits_of, number_of};

use dsec_name::NoMemory;

/// How many characters a hash of 20 octets takes.
pub(crate) const LABEL_SIZE: u8 = 32;

/// How many octets eight characters write, without bits left over.
const GROUP: usize = 5;

/// Adds a hash in base32hex, 32 characters in lower case.
pub(crate) fn push_label(out: &mut Vec<u8>, hash: &[u8; 20]) -> Result<(), NoMemory>
    ensures { OnOk result (out.new.items ≡ out.old.items ++ base32hex hash.now) }
{
    let mut rest: &[u8] = hash;
    while rest.len() >= GROUP {
        let (group, after) = rest.split_at(GROUP);
        push_group(out, number(group))?;
        rest = after;
    }
    Ok(())
}

/// The number that five octets write, the highest first.
#[tactic(auto, using(crate::proofs::LabelLaws::five_octets))]
fn number(group: &[u8]) -> u64
    requires { length group.now ≡ 5 }
    ensures value { result ≡ number_of 256 group.now }
    ensures small { result < 32 ^ 8 }
{
    let high = u64::from(group[0]) * 256 + u64::from(group[1]);
    let middle = (high * 256 + u64::from(group[2])) * 256 + u64::from(group[3]);
    middle * 256 + u64::from(group[4])
}

/// Adds the eight characters of 40 bits.
#[tactic(auto, unfolding(dsec_spec::specs::Base32hex::digits_of))]
fn push_group(out: &mut Vec<u8>, bits: u64) -> Result<(), NoMemory>
    ensures { OnOk result (out.new.items ≡ out.old.items ++ map character_of (digits_of 32 8 bits)) }
{
    out.extend_from_slice(&[
        character(bits, 35),
        character(bits, 30),
        character(bits, 25),
        character(bits, 20),
        character(bits, 15),
        character(bits, 10),
        character(bits, 5),
        character(bits, 0),
    ])?;
    Ok(())
}

/// The character of five bits, so far from the lowest.
fn character(bits: u64, shift: u32) -> u8
    requires { shift < 64 }
    ensures { result ≡ character_of (bits / 2 ^ shift % 32) }
{
    let digit = ((bits >> shift) % 32) as u8;
    if digit < 10 {
        b'0' + digit
    } else {
        b'a' - 10 + digit
    }
}
