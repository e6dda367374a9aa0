//! By which signed set it is known that no zone begins at a name, or that no chain leads there.

use dsec_link::RecordSet;
use dsec_name::{Name, NoMemory};
use dsec_node::{Ground, SignedCause, Standing};
use dsec_number::Rtype;
use dsec_word::{push_name, push_number};

/// Adds the owner and type of the set by which that is known, and what it shows of a name without a chain.
pub(crate) fn push_shown(out: &mut Vec<u8>, standing: &Standing) -> Result<(), NoMemory> {
    match standing {
        Standing::Within(last) => push_set(out, last.records()),
        Standing::Insecure(_, signed) => push_ground(out, signed),
        Standing::Apex(_) | Standing::Bogus(_) => Ok(()),
    }
}

/// Adds a set's owner and type.
fn push_set(out: &mut Vec<u8>, set: &RecordSet) -> Result<(), NoMemory> {
    out.extend_from_slice(b" by=")?;
    push_name(out, set.owner())?;
    out.push(b' ')?;
    push_number(out, u64::from(set.rtype().to_int()))
}

/// Adds the set that shows that no chain leads to a name, and on what ground.
fn push_ground(out: &mut Vec<u8>, signed: &SignedCause) -> Result<(), NoMemory> {
    if let Some(last) = signed.links.as_slice().last() {
        push_set(out, last.records())?;
    }
    Ok(out.extend_from_slice(ground_word(signed.basis))?)
}

/// The word for a ground.
fn ground_word(basis: Ground) -> &'static [u8] {
    match basis {
        Ground::NsecWithoutDs | Ground::Nsec3WithoutDs => b" without-ds",
        Ground::Nsec3OptsOut => b" opt-out",
        Ground::Nsec3Iterates => b" iterations",
        Ground::DsNotSupported => b" not-supported",
    }
}
