//! Record sets (RFC 2181 5).

ghost use Rattle.std.specs.Prelude.{◌≡◌, ◌≢◌, ◌↔◌, ◌==◌, ◌∷◌, [], List, Some, true, false, drop, IfNone, IfOk, IfSome, IsErrOf, slice_get};
ghost use Rattle.std.proofs.Props.{props};
ghost use Rattle.std.proofs.Math.Bool.{not};
ghost use Rattle.std.specs.List.{list_any};
ghost use Rattle.dsec_spec.specs.Records as entries;
ghost use Rattle.dsec_sorted.specs.Sets.{AreOfOneSet, AreWithin, chosen, differ_in_ttl, passes_in, records_at};

use dsec_name::Name;
use dsec_number::{Class, Rtype, Ttl};
use dsec_wire::Record;
use thiserror::Error;

/// Records of one owner, class and type, one at least.
#[derive(Clone, Copy)]
pub struct Rrset<'a> {
    first: &'a Record,
    records: &'a [Record],
    // Which of the records are meant; all where there are no places.
    places: Option<&'a [usize]>,
    ghost within: { IfSome places (λ p. AreWithin records.now p.now) } by { Prim.hlevel props },
    ghost begins: { slice_get (chosen records.now places) 0 ≡ Some first.now },
    ghost one_set: { AreOfOneSet (chosen records.now places) } by { Prim.hlevel props },
}

/// Why records are no set. The first of these that holds is the answer.
#[derive(Clone, Copy, Debug, PartialEq, Eq, Error)]
pub enum RrsetError {
    /// There is no record.
    #[error("Empty slice of Record")]
    EmptyRecordSlice,
    /// The records differ in TTL, and are no signatures.
    #[error("Multiple TTL values in RRset")]
    MultipleTtlValues,
}

impl<'a> Rrset<'a> {
    ghost use Rattle.dsec_sorted.specs.SetViews.{members_left, members_of};

    /// The set of these records, which are to be of one owner, class and type.
    pub fn new_from_owned(records: &'a [Record]) -> Result<Self, RrsetError>
        requires { AreOfOneSet records.now }
        ensures set { IfOk result (λ set. members_of set ≡ records.now) }
        ensures empty { IsErrOf result RrsetError.EmptyRecordSlice ↔ (records.now ≡ []) }
        ensures ttls { IsErrOf result RrsetError.MultipleTtlValues ↔ (differ_in_ttl records.now ≡ true) }
    {
        let Some((first, others)) = records.split_first() else {
            return Err(RrsetError::EmptyRecordSlice);
        };
        if first.rtype() != Rtype::RRSIG && has_other_ttl(first, others) {
            return Err(RrsetError::MultipleTtlValues);
        }
        Ok(Rrset {
            first,
            records,
            places: None,
        })
    }

    /// The set of the records at these places, which are to be of one owner, class and type.
    pub fn new_from_refs(records: &'a [Record], places: &'a [usize]) -> Result<Self, RrsetError>
        requires within { AreWithin records.now places.now }
        requires set { AreOfOneSet (records_at records.now places.now) }
        ensures set { IfOk result (λ set. members_of set ≡ records_at records.now places.now) }
        ensures empty { IsErrOf result RrsetError.EmptyRecordSlice ↔ (places.now ≡ []) }
        ensures ttls { IsErrOf result RrsetError.MultipleTtlValues ↔ (differ_in_ttl (records_at records.now places.now) ≡ true) }
    {
        let Some((&at, others)) = places.split_first() else {
            return Err(RrsetError::EmptyRecordSlice);
        };
        let first = &records[at];
        if differ_at(first, records, others) {
            return Err(RrsetError::MultipleTtlValues);
        }
        Ok(Rrset {
            first,
            records,
            places: Some(places),
        })
    }

    /// The set of these records, which are to be of one owner, class, type and TTL, one at least.
    pub fn from_checked(records: &'a [Record]) -> Self
        requires set { AreOfOneSet records.now }
        requires some { records.now ≢ [] }
        requires ttls { differ_in_ttl records.now ≡ false }
        ensures { members_of result ≡ records.now }
    {
        Rrset {
            first: &records[0],
            records,
            places: None,
        }
    }

    /// The first record.
    pub fn first(&self) -> &'a Record
        ensures { members_of self.now ≡ result.now ∷ drop 1 (members_of self.now) }
    {
        self.first
    }

    /// The owner, as the first record has it.
    pub fn owner(&self) -> &'a Name
        ensures { (first : entries.Record) (others : List entries.Record) → members_of self.now ≡ first ∷ others → result.now ≡ first.owner }
    {
        self.first.owner()
    }

    /// The class.
    pub fn class(&self) -> Class
        ensures { (first : entries.Record) (others : List entries.Record) → members_of self.now ≡ first ∷ others → result ≡ first.class }
    {
        self.first.class()
    }

    /// The type.
    pub fn rtype(&self) -> Rtype
        ensures { (first : entries.Record) (others : List entries.Record) → members_of self.now ≡ first ∷ others → result ≡ first.rtype }
    {
        self.first.rtype()
    }

    /// The TTL; of signatures, which may differ in it, that of the first.
    pub fn ttl(&self) -> Ttl
        ensures { (first : entries.Record) (others : List entries.Record) → members_of self.now ≡ first ∷ others → result ≡ first.ttl }
    {
        self.first.ttl()
    }

    /// Goes over the records in their order.
    pub fn iter(&self) -> RrsetIter<'a>
        ensures { members_left result ≡ members_of self.now }
    {
        RrsetIter {
            records: self.records,
            places: self.places,
        }
    }
}

/// Goes over the records of a set.
#[derive(Clone, Copy)]
pub struct RrsetIter<'a> {
    records: &'a [Record],
    places: Option<&'a [usize]>,
    ghost within: { IfSome places (λ p. AreWithin records.now p.now) } by { Prim.hlevel props },
}

impl<'a> RrsetIter<'a> {
    ghost use Rattle.dsec_sorted.specs.SetViews.{members_left};

    /// The next record.
    pub fn next(&mut self) -> Option<&'a Record>
        ensures first { IfSome result (λ it. members_left self.old ≡ it.now ∷ members_left self.new) }
        ensures end { IfNone result (members_left self.old ≡ []) }
        ensures ended { IfNone result (members_left self.new ≡ []) }
    {
        match self.places {
            None => {
                let Some((first, rest)) = self.records.split_first() else {
                    return None;
                };
                self.records = rest;
                Some(first)
            }
            Some(places) => {
                let Some((at, rest)) = places.split_first() else {
                    return None;
                };
                let first = &self.records[*at];
                self.places = Some(rest);
                Some(first)
            }
        }
    }
}

/// Whether one of the records has another TTL than the first.
fn has_other_ttl(first: &Record, others: &[Record]) -> bool
    ensures { result ≡ list_any (λ r. not (r.ttl == first.now.ttl)) others.now }
{
    others.iter().any(|one| differs(first, one))
}

/// Whether a set of this record and those at these places differs in TTL.
fn differ_at(first: &Record, records: &[Record], places: &[usize]) -> bool
    ensures { result ≡ differ_in_ttl (first.now ∷ records_at records.now places.now) }
{
    first.rtype() != Rtype::RRSIG && has_other_ttl_at(first, records, places)
}

/// Whether one of the records at these places has another TTL than the first.
fn has_other_ttl_at(first: &Record, records: &[Record], places: &[usize]) -> bool
    ensures { result ≡ list_any (λ r. not (r.ttl == first.now.ttl)) (records_at records.now places.now) }
{
    is_other_ttl_among(first, records, places)
}

/// The same, place by place.
fn is_other_ttl_among(first: &Record, records: &[Record], places: &[usize]) -> bool
    ensures { result ≡ list_any (λ at. passes_in (λ r. not (r.ttl == first.now.ttl)) (slice_get records.now at)) places.now }
{
    places.iter().any(|at| is_other_ttl_at(first, records, *at))
}

/// Whether the record at this place, if there is one, has another TTL than the first.
fn is_other_ttl_at(first: &Record, records: &[Record], at: usize) -> bool
    ensures { result ≡ passes_in (λ r. not (r.ttl == first.now.ttl)) (slice_get records.now at) }
{
    match records.get(at) {
        Some(one) => differs(first, one),
        None => false,
    }
}

/// Whether two records differ in TTL.
fn differs(first: &Record, one: &Record) -> bool
    ensures { result ≡ not (one.now.ttl == first.now.ttl) }
{
    one.ttl() != first.ttl()
}
