//! Records in canonical order (RFC 4034 6).

ghost use Rattle.std.specs.Prelude.{◌≡◌, ◌↔◌, ◌≤◌, ◌<◌, ◌++◌, ◌∷◌, [], Contains, IfErr, IfOk, IsPermutation, MatchResult, OnErr, OnOk, insert, length};
ghost use Rattle.std.specs.List.{dedup};
ghost use Rattle.std.specs.List.Sorted.{IsSorted, IsStable};
ghost use Rattle.std.specs.Ordering.{eq_by_cmp};
ghost use Rattle.dsec_spec.specs.CanonicalRecords.{IsCanonical, IsFirst, record_cmp};
ghost use Rattle.dsec_spec.specs.Records as entries;
ghost use Rattle.dsec_spec.specs.SignedZones.{IsUnion};
ghost use Rattle.dsec_sorted.specs.declared.sorted.InsertError.TheVariants as refusal;
ghost use Rattle.dsec_sorted.specs.Inserting.{IsNew, IsPlace, IsPresent, IsReason};

use crate::order::canonical_cmp;
use dsec_name::NoMemory;
use dsec_wire::Record;
use std::alloc::Global;
use std::marker::Model;

/// Records in canonical order, without duplicates. A clause sees their list.
#[derive(Drop)]
pub struct SortedRecords {
    records: Vec<Record>,
}

impl Model for SortedRecords {
    ghost use Rattle.std.specs.Prelude.{List};
    ghost use Rattle.dsec_spec.specs.Records as entries;
    ghost use Rattle.dsec_spec.specs.SignedZones.{IsUnion};

    ghost Value = { List entries.Record };

    ghost view = { λ it. it.records.items };

    ghost use Rattle.dsec_spec.specs.CanonicalRecords.{IsCanonical};

    ghost invariant = { λ it. IsCanonical it.records.items };
}

/// Why a record wasn't inserted, with the record.
#[derive(Drop)]
pub enum InsertError {
    /// A duplicate of it is there: a record of the same owner, class and type with the same canonical data (RFC 2181 5).
    Duplicate(Record),
    /// There was no memory left.
    NoMemory(Record),
}

impl SortedRecords {
    /// No records.
    pub fn new(alloc: Global) -> Self
        ensures { result ≡ [] }
    {
        SortedRecords {
            records: Vec::new(alloc),
        }
    }

    /// The records, in canonical order.
    pub fn as_slice(&self) -> &[Record]
        ensures value { result.now ≡ self.now }
        ensures canonical { IsCanonical result.now }
    {
        &self.records
    }

    /// Adds a record where no duplicate of it is there, and else gives it back; a refusal changes nothing.
    pub fn insert(&mut self, item: Record) -> Result<(), InsertError>
        ensures ok { OnOk result (IsPermutation (item ∷ self.old) self.new) }
        ensures canonical { IsCanonical self.new }
        ensures err { OnErr result (self.new ≡ self.old) }
        ensures why { MatchResult result (λ _. IsNew item self.old) (λ e. IsReason e item self.old) }
    {
        match find_place(&self.records, &item) {
            Err(at) => insert_at(&mut self.records, at, item),
            Ok(_) => Err(InsertError::Duplicate(item)),
        }
    }

    /// Adds the records of which no duplicate is there; of duplicates among them the first. A refusal changes nothing.
    pub fn extend(&mut self, records: Vec<Record>) -> Result<(), NoMemory>
        ensures ok { OnOk result ((r : entries.Record) → Contains self.new r ↔ IsFirst (self.old ++ records.items) r) }
        ensures canonical { IsCanonical self.new }
        ensures err { OnErr result (self.new ≡ self.old) }
    {
        extend_sorted(&mut self.records, records)
    }

    /// The records, in canonical order.
    pub fn into_vec(self) -> Vec<Record>
        ensures value { result.items ≡ self }
        ensures canonical { IsCanonical result.items }
    {
        self.records
    }

    /// Records that are in canonical order, without duplicates.
    pub fn from_vec(records: Vec<Record>) -> Self
        requires { IsCanonical records.items }
        ensures { result ≡ records.items }
    {
        SortedRecords { records }
    }
}

/// Adds records to others, of duplicates the first alone, and brings all into canonical order; a refusal changes nothing.
pub fn extend_sorted(records: &mut Vec<Record>, added: Vec<Record>) -> Result<(), NoMemory>
    ensures ok { OnOk result (IsUnion records.old.items added.items records.new.items) }
    ensures err { OnErr result (records.new.items ≡ records.old.items) }
{
    let mut added = added;
    let old = records.len();
    records.append(&mut added)?;
    if let Err(error) = sort(records) {
        records.truncate(old);
        return Err(error);
    }
    drop_duplicates(records);
    Ok(())
}

/// Where a duplicate of a record stands, or where the record is to stand.
fn find_place(records: &[Record], item: &Record) -> Result<usize, usize>
    requires { IsCanonical records.now }
    ensures found { IfOk result (λ at. (at < length records.now) × IsPresent item.now records.now) }
    ensures place { IfErr result (λ at. IsPlace item.now records.now at) }
{
    records.binary_search_by(|one| canonical_cmp(one, item))
}

/// Puts a record before the one at a place, or behind the last; without memory it is given back.
fn insert_at(records: &mut Vec<Record>, at: usize, item: Record) -> Result<(), InsertError>
    requires { at ≤ length records.old.items }
    ensures ok { OnOk result (records.new.items ≡ insert records.old.items at item) }
    ensures err { OnErr result (records.new.items ≡ records.old.items) }
    ensures given { IfErr result (λ e. e ≡ refusal.NoMemory item) }
{
    if let Err(failed) = records.insert(at, item) {
        return Err(InsertError::NoMemory(failed.value));
    }
    Ok(())
}

/// Brings records into canonical order; duplicates keep the order that they have.
fn sort(records: &mut Vec<Record>) -> Result<(), NoMemory>
    ensures sorted { OnOk result (IsSorted record_cmp records.new.items) }
    ensures stable { OnOk result (IsStable record_cmp records.old.items records.new.items) }
    ensures err { OnErr result (records.new.items ≡ records.old.items) }
{
    records.sort_by(|a, b| canonical_cmp(a, b))?;
    Ok(())
}

/// Drops each record that is a duplicate of the one before it.
fn drop_duplicates(records: &mut Vec<Record>)
    ensures { records.new.items ≡ dedup (eq_by_cmp record_cmp) records.old.items }
{
    records.dedup_by(|b, a| canonical_cmp(b, a).is_eq());
}
