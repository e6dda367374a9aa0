//! The TTLs of a group (RFC 2181 5.2).

ghost use Rattle.std.specs.Prelude.{◌≡◌, max};
ghost use Rattle.dsec_spec.specs.Lasting.{greatest_ttl, greatest_ttl_in, least_ttl};

use crate::group::Group;
use dsec_number::Ttl;
use dsec_wire::Record;

impl Group {
    /// The least TTL of the records; 0 where there are signatures alone.
    pub fn min_ttl(&self) -> Ttl
        ensures { result ≡ least_ttl self.now.records }
    {
        least_of(self.rr_set())
    }

    /// The greatest TTL of the records, the signatures and the extra records.
    pub fn max_ttl(&self) -> Ttl
        ensures { result ≡ greatest_ttl_in self.now }
    {
        let signatures = greatest_from(0, self.sig_set());
        let all = greatest_from(greatest_from(signatures, self.extra_set()), self.rr_set());
        Ttl::from_secs(all)
    }
}

/// The least TTL of records; 0 of none.
fn least_of(records: &[Record]) -> Ttl
    ensures { result ≡ least_ttl records.now }
{
    let Some((first, others)) = records.split_first() else {
        return Ttl::ZERO;
    };
    let mut least = first.ttl().as_secs();
    for one in others {
        least = least.min(one.ttl().as_secs());
    }
    Ttl::from_secs(least)
}

/// The greatest of a number of seconds and the TTLs of records.
fn greatest_from(seconds: u32, records: &[Record]) -> u32
    ensures { result ≡ max seconds (greatest_ttl records.now) }
{
    let mut greatest = seconds;
    for one in records {
        greatest = greatest.max(one.ttl().as_secs());
    }
    greatest
}
