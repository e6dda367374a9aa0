//! The chain of denial that a zone gets (RFC 4035 2.3, RFC 5155 7.1).

ghost use Rattle.std.specs.Prelude.{IfErr, IfOk};
ghost use Rattle.dsec_spec.specs.CanonicalRecords.{AreOfOneClass, IsCanonical};
ghost use Rattle.dsec_spec.specs.NsecChains.{IsNsecChain};
ghost use Rattle.dsec_sorted.specs.IterViews.{left_of};
ghost use Rattle.dsec_hashed.specs.Config.{hashing_of};
ghost use Rattle.dsec_sign.specs.ZoneChains.{AreNsec3Records, IsChainOf, IsChainRefusal, IsNsec3Refusal, IsNsecRefusal};

use dsec_chain::{DenialError, generate_nsecs};
use dsec_hashed::generate_nsec3s;
use dsec_name::Name;
use dsec_rrsig::SigningError;
use dsec_sorted::{DenialConfig, Nsec3Config, RecordsIter};
use dsec_wire::Record;
use std::alloc::Global;

/// The chain that is asked for, of the zone that records in canonical order make.
pub(crate) fn chain_of(
    alloc: Global,
    apex: &Name,
    records: RecordsIter<'_>,
    denial: &DenialConfig,
) -> Result<Vec<Record>, SigningError>
    requires canonical { IsCanonical (left_of records) }
    requires class { AreOfOneClass (left_of records) }
    ensures chain { IfOk result (λ chain. IsChainOf denial.now apex.now (left_of records.entry) chain.items) }
    ensures why { IfErr result (λ e. IsChainRefusal denial.now apex.now (left_of records.entry) e) }
{
    match denial {
        DenialConfig::AlreadyPresent => Ok(Vec::new(alloc)),
        DenialConfig::Nsec => nsecs(alloc, apex, records),
        DenialConfig::Nsec3(config) => nsec3s(alloc, apex, records, config),
    }
}

/// The NSEC records.
fn nsecs(alloc: Global, apex: &Name, records: RecordsIter<'_>) -> Result<Vec<Record>, SigningError>
    requires canonical { IsCanonical (left_of records) }
    requires class { AreOfOneClass (left_of records) }
    ensures chain { IfOk result (λ chain. IsNsecChain apex.now (left_of records.entry) chain.items) }
    ensures why { IfErr result (λ e. IsNsecRefusal apex.now (left_of records.entry) e) }
{
    match generate_nsecs(alloc, apex, records) {
        Ok(nsecs) => Ok(nsecs),
        Err(DenialError::SoaRecordCouldNotBeDetermined) => {
            Err(SigningError::SoaRecordCouldNotBeDetermined)
        }
        // No name is hashed: what is left is want of memory.
        Err(_) => Err(SigningError::OutOfMemory),
    }
}

/// The NSEC3 records, and the NSEC3PARAM record.
fn nsec3s(
    alloc: Global,
    apex: &Name,
    records: RecordsIter<'_>,
    config: &Nsec3Config,
) -> Result<Vec<Record>, SigningError>
    requires canonical { IsCanonical (left_of records) }
    requires class { AreOfOneClass (left_of records) }
    ensures chain { IfOk result (λ chain. AreNsec3Records (hashing_of config.now) apex.now (left_of records.entry) chain.items) }
    ensures why { IfErr result (λ e. IsNsec3Refusal (hashing_of config.now) apex.now (left_of records.entry) e) }
{
    match generate_nsec3s(alloc, apex, records, config) {
        Ok(made) => {
            let mut chain = made.nsec3s;
            chain.push(made.nsec3param)?;
            Ok(chain)
        }
        Err(error) => Err(SigningError::from(error)),
    }
}
