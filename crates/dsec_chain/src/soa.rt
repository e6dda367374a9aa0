//! The SOA record at a zone's apex (RFC 1034 4.2.1).

ghost use Rattle.std.specs.Prelude.{◌≡◌, ◌≢◌, ◌∷◌, [], filter, length, IfNone, IfSome};
ghost use Rattle.dsec_spec.specs.Names.{place};
ghost use Rattle.dsec_spec.specs.Numbers.{SOA};
ghost use Rattle.dsec_spec.specs.NsecChains.{IsChainTtl};
ghost use Rattle.dsec_spec.specs.ZonesOfRecords.{is_soa_at, soas_at};

use crate::names::is_same;
use dsec_name::Name;
use dsec_number::{Rtype, Ttl};
use dsec_wire::Record;

/// The one SOA record at the apex; none where there is none, or several.
pub fn the_soa<'a>(apex: &Name, records: &'a [Record]) -> Option<&'a Record>
    ensures one { IfSome result (λ soa. soas_at (place apex.now) records.now ≡ soa.now ∷ []) }
    ensures none { IfNone result (length (soas_at (place apex.now) records.now) ≢ 1) }
{
    let Some((soa, after)) = first_soa(apex, records) else {
        return None;
    };
    match first_soa(apex, after) {
        Some(_) => None,
        None => Some(soa),
    }
}

/// The first SOA record at the apex, and the records after it.
fn first_soa<'a>(apex: &Name, records: &'a [Record]) -> Option<(&'a Record, &'a [Record])>
    ensures some { IfSome result (λ p. soas_at (place apex.now) records.now ≡ p.0.now ∷ soas_at (place apex.now) p.1.now) }
    ensures none { IfNone result (soas_at (place apex.now) records.now ≡ []) }
{
    let mut rest = records;
    while let Some((first, after)) = rest.split_first() {
        if is_soa(apex, first) {
            return Some((first, after));
        }
        rest = after;
    }
    None
}

/// Whether the record says where the zone starts.
fn is_soa(apex: &Name, one: &Record) -> bool
    ensures { result ≡ is_soa_at (place apex.now) one.now }
{
    one.rtype() == Rtype::SOA && is_same(one.owner(), apex)
}

/// How long the records of a chain are kept: the lesser of the SOA record's TTL and its minimum field (RFC 9077 3).
pub fn chain_ttl(soa: &Record) -> Ttl
    requires { soa.now.rtype ≡ SOA }
    ensures { IsChainTtl soa.now result }
{
    let rdata = soa.rdata();
    match rdata.soa() {
        Some(start) => {
            if soa.ttl().as_secs() < start.minimum.as_secs() {
                soa.ttl()
            } else {
                start.minimum
            }
        }
        // The record has the data of its type.
        None => soa.ttl(),
    }
}
