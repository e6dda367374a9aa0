//! The data of NSEC3 and NSEC3PARAM records (RFC 5155 3.2, 4.2).

ghost use Rattle.std.specs.Prelude.{◌≡◌, ◌++◌, ◌≤◌, ◌<◌, length, IfOk, OnOk};
ghost use Rattle.dsec_spec.specs.Numbers.{NSEC3PARAM};
ghost use Rattle.dsec_spec.specs.RecordViews.{hashing_octets};
ghost use Rattle.dsec_hashed.specs.Config.{hashing_of, without_flags};
ghost use Rattle.dsec_hashed.specs.Nsec3Made.{IsNsec3Data};

use dsec_name::{NoMemory, Octets};
use dsec_number::Rtype;
use dsec_sorted::{Nsec3Config, push_bitmap};
use dsec_wire::Data;
use std::alloc::Global;

/// SHA-1, the one algorithm (RFC 5155 11).
const SHA1: u8 = 1;

/// The flag Opt-Out (RFC 5155 3.1.2.1).
const OPT_OUT: u8 = 1;

/// The data of an NSEC3 record with this next hash and these types.
pub(crate) fn nsec3_data(
    alloc: Global,
    config: &Nsec3Config,
    next: &[u8; 20],
    types: &[Rtype],
) -> Result<Data, NoMemory>
    ensures { IfOk result (λ it. IsNsec3Data (hashing_of config.now) next.now types.now it) }
{
    let mut octets = Vec::new(alloc);
    push_hashing(&mut octets, flags_of(config), config)?;
    octets.push(20)?;
    octets.extend_from_slice(next)?;
    push_bitmap(&mut octets, types)?;
    Ok(Data::new(Rtype::NSEC3, Octets::new(octets)))
}

/// The flags of NSEC3 records.
fn flags_of(config: &Nsec3Config) -> u8
    ensures { result ≡ (hashing_of config.now).flags }
{
    if config.opt_out { OPT_OUT } else { 0 }
}

/// The data of the NSEC3PARAM record.
pub(crate) fn nsec3param_data(alloc: Global, config: &Nsec3Config) -> Result<Data, NoMemory>
    ensures { IfOk result (λ it. it ≡ record { rtype = NSEC3PARAM; octets = hashing_octets (without_flags (hashing_of config.now)) }) }
{
    let mut octets = Vec::new(alloc);
    push_hashing(&mut octets, 0, config)?;
    Ok(Data::new(Rtype::NSEC3PARAM, Octets::new(octets)))
}

/// Adds how names are hashed.
fn push_hashing(out: &mut Vec<u8>, flags: u8, config: &Nsec3Config) -> Result<(), NoMemory>
    ensures octets { OnOk result (out.new.items ≡ out.old.items ++ hashing_octets (record { hash_algorithm = 1; flags = flags; iterations = config.now.iterations; salt = config.now.salt })) }
    ensures short { length config.now.salt ≤ 255 }
    ensures small { OnOk result (config.now.iterations < 65536) }
{
    let salt = config.salt.as_slice();
    out.extend_from_slice(&[SHA1, flags])?;
    out.extend_from_slice(&config.iterations.to_be_bytes())?;
    out.push(salt.len() as u8)?;
    out.extend_from_slice(salt)?;
    Ok(())
}
