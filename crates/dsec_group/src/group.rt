//! A group: the records of one owner, class and type, and their signatures (RFC 2181 5, RFC 4035 2.2).

ghost use Rattle.std.specs.Prelude.{◌≡◌, ◌≢◌, ◌<◌, ◌++◌, ◌∷◌, [], All, IfOk, OnOk, OnErr, Some, length, true};
ghost use Rattle.dsec_spec.specs.Names.{place};
ghost use Rattle.dsec_spec.specs.Numbers.{RRSIG};
ghost use Rattle.dsec_spec.specs.Groups.{grouped_type as type_of};
ghost use Rattle.std.specs.Slice.Iter.{iter_rest};
ghost use Rattle.dsec_spec.specs.Redirection.{with_followers};
ghost use Rattle.dsec_group.specs.Adding.{belongs_to, leader_in, new_group, put_in};

use crate::members::Members;
use dsec_name::{Name, NoMemory};
use dsec_number::{Class, Rtype};
use dsec_wire::Record;
use std::alloc::Global;
use std::marker::Model;
use std::slice::Iter;

/// The records of one owner, class and type with the signatures that cover them, in order of arrival and without duplicates: at least
/// one record or signature. A group of a DNAME has besides the CNAME records that follow from it and stood apart (RFC 6672 3.1).
#[derive(Drop)]
pub struct Group {
    records: Members,
    signatures: Members,
    extra: Vec<Record>,
    had_duplicate: bool,
}

impl Model for Group {
    ghost use Rattle.dsec_spec.specs.Groups as grouping;

    ghost Value = { grouping.Group };

    ghost use Rattle.dsec_group.specs.Adding.{group_with, AreGrouped};

    ghost view = { λ it. group_with it.records it.signatures it.extra.items it.had_duplicate };

    ghost invariant = { λ it. AreGrouped it.records it.signatures };
}

impl Group {
    /// The group of one record.
    pub(crate) fn of(alloc: Global, next: Record) -> Result<Group, NoMemory>
        ensures { IfOk result (λ group. group ≡ new_group next) }
    {
        let mut records = Members::new(alloc);
        let mut signatures = Members::new(alloc);
        if next.rtype() == Rtype::RRSIG {
            signatures.add(next)?;
        } else {
            records.add(next)?;
        }
        Ok(Group {
            records,
            signatures,
            extra: Vec::new(alloc),
            had_duplicate: false,
        })
    }

    /// The first record, or the first signature where there is no record.
    pub(crate) fn leader(&self) -> &Record
        ensures leads { leader_in self.now.records self.now.signatures ≡ Some result.now }
        ensures owner { result.now.owner ≡ self.now.owner }
        ensures class { result.now.class ≡ self.now.class }
    {
        let records = self.records.as_slice();
        if records.is_empty() {
            &self.signatures.as_slice()[0]
        } else {
            &records[0]
        }
    }

    /// The owner, in the letters of the first record, or of the first signature where there is no record.
    pub fn owner(&self) -> &Name
        ensures { result.now ≡ self.now.owner }
    {
        self.leader().owner()
    }

    /// The class of all members.
    pub fn class(&self) -> Class
        ensures { result ≡ self.now.class }
    {
        self.leader().class()
    }

    /// The type of the records, and RRSIG where there are signatures alone.
    pub fn rtype(&self) -> Rtype
        ensures { result ≡ self.now.rtype }
    {
        let records = self.records.as_slice();
        if records.is_empty() {
            Rtype::RRSIG
        } else {
            records[0].rtype()
        }
    }

    /// The records that are no signatures, in order of arrival.
    pub fn rr_set(&self) -> &[Record]
        ensures records { result.now ≡ self.now.records }
        ensures typed { All (λ one. one.rtype ≡ self.now.rtype) result.now }
        ensures plain { All (λ one. one.rtype ≢ RRSIG) result.now }
        ensures together { All (λ one. (place one.owner ≡ place self.now.owner) × (one.class ≡ self.now.class)) result.now }
    {
        self.records.as_slice()
    }

    /// The signatures, which are RRSIG records, in order of arrival (RFC 4034 3).
    pub fn sig_set(&self) -> &[Record]
        ensures signatures { result.now ≡ self.now.signatures }
        ensures typed { All (λ one. one.rtype ≡ RRSIG) result.now }
        ensures together { All (λ one. (place one.owner ≡ place self.now.owner) × (one.class ≡ self.now.class)) result.now }
        ensures covering { 0 < length self.now.records → All (λ one. type_of one ≡ self.now.rtype) result.now }
    {
        self.signatures.as_slice()
    }

    /// How many signatures there are.
    pub fn sig_set_len(&self) -> usize
        ensures { result ≡ length self.now.signatures }
    {
        self.signatures.as_slice().len()
    }

    /// The CNAME records that follow from the group's DNAME record and stood apart, in order of arrival (RFC 6672 3.1).
    pub fn extra_set(&self) -> &[Record]
        ensures { result.now ≡ self.now.extra }
    {
        &self.extra
    }

    /// Whether a duplicate of a member was dropped (RFC 2181 5).
    pub fn found_duplicate(&self) -> bool
        ensures { result ≡ self.now.had_duplicate }
    {
        self.had_duplicate
    }

    /// A copy of the group.
    pub fn clone(&self) -> Result<Group, NoMemory>
        ensures { IfOk result (λ copy. copy ≡ self.now) }
    {
        let records = self.records.copied()?;
        let signatures = self.signatures.copied()?;
        let extra = self.extra.clone()?;
        Ok(Group {
            records,
            signatures,
            extra,
            had_duplicate: self.had_duplicate,
        })
    }

    /// Takes on copies of another group's records as extra records, and its mark.
    pub(crate) fn take_on(&mut self, other: &Group) -> Result<(), NoMemory>
        ensures { OnOk result (self.new ≡ with_followers self.old (other.now ∷ [])) }
    {
        push_copies(&mut self.extra, other.rr_set())?;
        self.had_duplicate |= other.found_duplicate();
        Ok(())
    }

    /// The records that are no signatures one by one, in order of arrival.
    pub fn rr_iter(&self) -> Iter<'_, Record>
        ensures { iter_rest result ≡ self.now.records }
    {
        self.rr_set().iter()
    }

    /// The signatures one by one, in order of arrival.
    pub fn sig_iter(&self) -> Iter<'_, Record>
        ensures { iter_rest result ≡ self.now.signatures }
    {
        self.sig_set().iter()
    }

    /// Lets go of what is kept for records that are added.
    pub(crate) fn settle(&mut self)
        ensures { self.new ≡ self.old }
    {
        self.records.settle();
        self.signatures.settle();
    }

    /// Adds a record of the group, and notes and drops a duplicate.
    pub(crate) fn put(&mut self, next: Record) -> Result<(), NoMemory>
        requires { belongs_to next self.old ≡ true }
        ensures ok { OnOk result (self.new ≡ put_in next self.old) }
        ensures err { OnErr result (self.new ≡ self.old) }
    {
        if next.rtype() == Rtype::RRSIG {
            let found = self.signatures.add(next)?;
            self.had_duplicate |= found;
        } else {
            let found = self.records.add(next)?;
            self.had_duplicate |= found;
        }
        Ok(())
    }
}

/// The type that a record is grouped by: of a signature the type that it covers (RFC 4034 3.1.1).
pub(crate) fn grouped_type(next: &Record) -> Rtype
    ensures { result ≡ type_of next.now }
{
    if next.rtype() != Rtype::RRSIG {
        return next.rtype();
    }
    match *next.rdata().octets().as_slice() {
        [high, low, ..] => Rtype::from_int(u16::from_be_bytes([high, low])),
        _ => Rtype::from_int(0),
    }
}

/// Adds copies of records.
fn push_copies(extra: &mut Vec<Record>, records: &[Record]) -> Result<(), NoMemory>
    ensures { OnOk result (extra.new.items ≡ extra.old.items ++ records.now) }
{
    for one in records {
        extra.push(copied(one)?)?;
    }
    Ok(())
}

/// A copy of a record.
fn copied(one: &Record) -> Result<Record, NoMemory>
    ensures { IfOk result (λ copy. copy ≡ one.now) }
{
    Ok(one.clone()?)
}
