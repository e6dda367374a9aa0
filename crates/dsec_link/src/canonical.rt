//! Data as they are signed, and in order (RFC 4034 6.2, 6.3).

ghost use Rattle.std.specs.Prelude.{◌≡◌, IfOk, map};
ghost use Rattle.dsec_spec.specs.SignedBytes.{ascending};
ghost use Rattle.dsec_link.specs.Sets.{canonical_of, canonical_record, canonicals_in};

use dsec_name::{NoMemory, Octets};
use dsec_wire::{Data, Record};
use std::alloc::Global;

/// A record's data as signatures take them.
pub(crate) fn canonical(alloc: Global, one: &Data) -> Result<Octets, NoMemory>
    ensures { IfOk result (λ octets. octets ≡ canonical_of one.now) }
{
    let mut out = Vec::with_capacity(alloc, one.octets().len())?;
    one.compose_canonical(&mut out)?;
    Ok(Octets::new(out))
}

/// The data of records, in the order of what signatures take of them; nothing is copied.
pub(crate) fn ordered_datas<'a>(
    alloc: Global,
    records: &'a [Record],
) -> Result<Vec<&'a Data>, NoMemory>
    ensures { IfOk result (λ all. canonicals_in all.items ≡ ascending (map canonical_record records.now)) }
{
    let mut all = datas_of(alloc, records)?;
    all.sort_unstable_by(|a, b| a.canonical_cmp(b));
    Ok(all)
}

/// The data of records.
fn datas_of<'a>(alloc: Global, records: &'a [Record]) -> Result<Vec<&'a Data>, NoMemory>
    ensures { IfOk result (λ all. canonicals_in all.items ≡ map canonical_record records.now) }
{
    let mut all = Vec::with_capacity(alloc, records.len())?;
    for record in records {
        all.extend_from_slice(&[record.rdata()])?;
    }
    Ok(all)
}
