//! The canonical order of records (RFC 4034 6.1, 6.3).

ghost use Rattle.std.specs.Prelude.{◌≡◌, ◌↔◌, ◌==◌, IsTrue};
ghost use Rattle.std.proofs.Math.Bool.{not};
ghost use Rattle.std.specs.List.{list_any};
ghost use Rattle.dsec_spec.specs.CanonicalRecords.{AreOfOneClass, IsCanonical, record_cmp};

use dsec_wire::Record;
use std::cmp::Ordering;

/// The order of two records: by class, owner, type and canonical data. Records tie where they are duplicates. It takes no memory.
pub fn canonical_cmp(a: &Record, b: &Record) -> Ordering
    ensures { result ≡ record_cmp a.now b.now }
{
    let class = a.class().cmp(&b.class());
    let owner = a.owner().canonical_cmp(b.owner());
    let rtype = a.rtype().cmp(&b.rtype());
    if class != Ordering::Equal {
        return class;
    }
    if owner != Ordering::Equal {
        return owner;
    }
    if rtype != Ordering::Equal {
        return rtype;
    }
    a.rdata().canonical_cmp(b.rdata())
}

/// Whether the records are in canonical order, without duplicates. It takes one comparison for each record, and no memory.
pub fn is_sorted_canonical(records: &[Record]) -> bool
    ensures { IsTrue result ↔ IsCanonical records.now }
{
    let mut i = 1;
    while i < records.len() {
        if canonical_cmp(&records[i - 1], &records[i]) != Ordering::Less {
            return false;
        }
        i += 1;
    }
    true
}

/// Whether the records are all of one class. It takes one comparison for each record, and no memory.
pub fn is_of_one_class(records: &[Record]) -> bool
    ensures { IsTrue result ↔ AreOfOneClass records.now }
{
    let Some((first, others)) = records.split_first() else {
        return true;
    };
    let has_other = has_other_class(first, others);
    !has_other
}

/// Whether one of the records has another class than the first.
fn has_other_class(first: &Record, others: &[Record]) -> bool
    ensures { result ≡ list_any (λ r. not (r.class == first.now.class)) others.now }
{
    others.iter().any(|one| differ_in_class(first, one))
}

/// Whether two records differ in class.
fn differ_in_class(first: &Record, one: &Record) -> bool
    ensures { result ≡ not (one.now.class == first.now.class) }
{
    one.class() != first.class()
}
