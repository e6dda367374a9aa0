//! Copies of records with their TTLs cut (RFC 4035 5.3.3).

ghost use Rattle.std.specs.Prelude.{◌≡◌, IfOk};
ghost use Rattle.dsec_rewrite.specs.Cutting.{cut as cut_of, cut_ttl as ttl_cut};

use crate::bounded::BoundedGroup;
use dsec_name::NoMemory;
use dsec_number::Ttl;
use dsec_wire::Record;

/// A TTL, no greater than the group's bound where it has one.
fn cut_ttl(ttl: Ttl, group: &BoundedGroup<'_>) -> Ttl
    ensures { result ≡ ttl_cut group.now.adjust_ttl ttl }
{
    match group.adjust_ttl {
        Some(bound) => Ttl::from_secs(ttl.as_secs().min(bound.as_secs())),
        None => ttl,
    }
}

/// A copy of a record, its TTL cut as those of a group are.
pub(crate) fn cut(one: &Record, group: &BoundedGroup<'_>) -> Result<Record, NoMemory>
    ensures { IfOk result (λ made. made ≡ cut_of group.now.adjust_ttl one.now) }
{
    let ttl = cut_ttl(one.ttl(), group);
    let owner = one.owner().clone()?;
    let rdata = one.rdata().clone()?;
    Ok(Record::new(owner, one.class(), ttl, rdata))
}
