//! Records of one group, without duplicates (RFC 2181 5, RFC 4034 6.3).

ghost use Rattle.std.specs.Prelude.{◌≡◌, IfOk, OnOk, OnErr, [], true};
ghost use Rattle.std.specs.BTreeSet.{contains};
ghost use Rattle.std.specs.Cmp.Lexicographic.{slice_cmp};
ghost use Rattle.std.specs.Ordering.{nat_cmp};
ghost use Rattle.dsec_group.specs.Adding.{AreKnown, canonical_of, has_data, with_record};

use dsec_name::{NoMemory, Octets};
use dsec_wire::Record;
use std::alloc::Global;
use std::collections::BTreeSet;
use std::marker::Model;

/// Records of one owner, class and type, in order of arrival; and the set of their canonical data, by which
/// a record's duplicate is found. The set is made when a second record comes: most sets have no other.
#[derive(Drop)]
pub(crate) struct Members {
    records: Vec<Record>,
    canonical: BTreeSet<Octets>,
    is_indexed: bool,
}

impl Model for Members {
    ghost use Rattle.std.specs.Prelude.{List};
    ghost use Rattle.std.specs.BTreeSet.{contains};
    ghost use Rattle.std.specs.Cmp.Lexicographic.{slice_cmp};
    ghost use Rattle.std.specs.Ordering.{nat_cmp};
    ghost use Rattle.dsec_spec.specs.Records as entries;
    ghost use Rattle.dsec_group.specs.Adding.{AreKnown};

    ghost Value = { List entries.Record };

    ghost view = { λ it. it.records.items };

    ghost invariant = { λ it. AreKnown it.is_indexed (contains (slice_cmp nat_cmp) it.canonical) it.records.items };
}

impl Members {
    /// No records.
    pub(crate) fn new(alloc: Global) -> Members
        ensures { result ≡ [] }
    {
        Members {
            records: Vec::new(alloc),
            canonical: BTreeSet::new(alloc),
            is_indexed: false,
        }
    }

    /// The records, in order of arrival.
    pub(crate) fn as_slice(&self) -> &[Record]
        ensures { result.now ≡ self.now }
    {
        &self.records
    }

    /// Adds a record, unless one with its canonical data is there; whether there was one.
    pub(crate) fn add(&mut self, next: Record) -> Result<bool, NoMemory>
        ensures ok { OnOk result (self.new ≡ with_record next self.old) }
        ensures duplicate { IfOk result (λ found. found ≡ has_data (canonical_of next) self.old) }
        ensures err { OnErr result (self.new ≡ self.old) }
    {
        let alloc = *self.records.allocator();
        if !self.is_indexed && self.records.is_empty() {
            self.records.reserve_exact(1)?;
            self.records.push_reserved(next);
            return Ok(false);
        }
        index(alloc, &mut self.canonical, &self.records, self.is_indexed)?;
        self.is_indexed = true;
        let octets = canonical_octets(alloc, &next)?;
        self.records.reserve(1)?;
        let is_new = self.canonical.insert(octets)?;
        if is_new {
            self.records.push_reserved(next);
        }
        Ok(!is_new)
    }

    /// Lets go of the canonical data, which are taken again where a record is added after all.
    pub(crate) fn settle(&mut self)
        ensures { self.new ≡ self.old }
    {
        let alloc = *self.records.allocator();
        self.canonical = BTreeSet::new(alloc);
        self.is_indexed = false;
    }

    /// A copy of the records, whose canonical data aren't known yet.
    pub(crate) fn copied(&self) -> Result<Members, NoMemory>
        ensures { IfOk result (λ copy. copy ≡ self.now) }
    {
        let alloc = *self.records.allocator();
        let records = self.records.clone()?;
        Ok(Members {
            records,
            canonical: BTreeSet::new(alloc),
            is_indexed: false,
        })
    }
}

/// Takes the canonical data of the records, where this wasn't done yet.
fn index(
    alloc: Global,
    canonical: &mut BTreeSet<Octets>,
    records: &[Record],
    is_indexed: bool,
) -> Result<(), NoMemory>
    requires { AreKnown is_indexed (contains (slice_cmp nat_cmp) canonical.old) records.now }
    ensures ok { OnOk result (AreKnown true (contains (slice_cmp nat_cmp) canonical.new) records.now) }
    ensures err { OnErr result (canonical.new ≡ canonical.old) }
{
    if is_indexed {
        return Ok(());
    }
    let known = indexed(alloc, records)?;
    *canonical = known;
    Ok(())
}

/// The canonical data of records.
fn indexed(alloc: Global, records: &[Record]) -> Result<BTreeSet<Octets>, NoMemory>
    ensures { IfOk result (λ known. AreKnown true (contains (slice_cmp nat_cmp) known) records.now) }
{
    let mut known = BTreeSet::new(alloc);
    for record in records {
        let octets = canonical_octets(alloc, record)?;
        known.insert(octets)?;
    }
    Ok(known)
}

/// A record's data as they are signed (RFC 4034 6.2).
fn canonical_octets(alloc: Global, next: &Record) -> Result<Octets, NoMemory>
    ensures { IfOk result (λ octets. octets ≡ canonical_of next.now) }
{
    let mut octets = Vec::with_capacity(alloc, next.rdata().octets().len())?;
    next.rdata().compose_canonical(&mut octets)?;
    Ok(Octets::new(octets))
}
