//! Sets of records: those of one owner, class and type (RFC 2181 5).

ghost use Rattle.std.specs.Prelude.{◌≡◌, ◌↔◌, Contains, IfOk, IsTrue, length};
ghost use Rattle.dsec_spec.specs.Records.{set_of};
ghost use Rattle.dsec_link.specs.Sets.{AreOf, AreRecordsOf, octets_of};

use dsec_name::{Name, NoMemory, Octets};
use dsec_number::{Class, Rtype};
use dsec_wire::{Data, Record};
use std::alloc::{AllocError, Global};
use std::marker::Model;

/// The records of one owner, class and type, by their data, which are kept as they came.
#[derive(Drop)]
pub struct RecordSet {
    owner: Name,
    class: Class,
    rtype: Rtype,
    datas: Vec<Data>,
}

impl Model for RecordSet {
    ghost use Rattle.dsec_spec.specs.Records as records;
    ghost use Rattle.dsec_link.specs.Sets.{AreOf, octets_of};

    ghost Value = { records.RecordSet };

    ghost view = { λ it. record { owner = it.owner; class = it.class; rtype = it.rtype; datas = octets_of it.datas.items } };

    ghost invariant = { λ it. AreOf it.rtype it.datas.items };
}

impl Clone for RecordSet {
    ghost use Rattle.std.specs.Prelude.{◌≡◌};

    ghost is_clone = { λ old new. new ≡ old };

    fn clone(&self) -> Result<RecordSet, AllocError> {
        let owner = self.owner.clone()?;
        let datas = self.datas.clone()?;
        Ok(RecordSet {
            owner,
            class: self.class,
            rtype: self.rtype,
            datas,
        })
    }
}

impl RecordSet {
    /// The set of records of one type, with the owner and class of the first. Whether the others have that
    /// owner and class is the caller's to see.
    pub fn from_records(alloc: Global, first: &Record, others: &[Record]) -> Result<Self, NoMemory>
        requires { AreRecordsOf first.now.rtype others.now }
        ensures { IfOk result (λ set. set ≡ set_of first.now others.now) }
    {
        let mut datas = Vec::with_capacity(alloc, others.len() + 1)?;
        datas.push(copied(first.rdata())?)?;
        for record in others {
            datas.push(copied(record.rdata())?)?;
        }
        Ok(RecordSet {
            owner: owner_of(first)?,
            class: first.class(),
            rtype: first.rtype(),
            datas,
        })
    }

    /// The set of this owner, class and type, by the data of its records, if any.
    pub fn new(owner: Name, class: Class, rtype: Rtype, datas: Vec<Data>) -> Self
        requires { AreOf rtype datas.items }
        ensures { result ≡ record { owner = owner; class = class; rtype = rtype; datas = octets_of datas.items } }
    {
        RecordSet {
            owner,
            class,
            rtype,
            datas,
        }
    }

    /// The owner, as the first record has it.
    pub fn owner(&self) -> &Name
        ensures { result.now ≡ self.now.owner }
    {
        &self.owner
    }

    /// The class.
    pub fn class(&self) -> Class
        ensures { result ≡ self.now.class }
    {
        self.class
    }

    /// The type.
    pub fn rtype(&self) -> Rtype
        ensures { result ≡ self.now.rtype }
    {
        self.rtype
    }

    /// The data, in the order in which they came.
    pub fn datas(&self) -> &[Data]
        ensures values { octets_of result.now ≡ self.now.datas }
        ensures typed { AreOf self.now.rtype result.now }
    {
        &self.datas
    }

    /// How many records there are.
    pub fn len(&self) -> usize
        ensures { result ≡ length self.now.datas }
    {
        self.datas.len()
    }

    /// Whether a record of the set has these data, octet by octet.
    pub fn has_data(&self, octets: &Octets) -> bool
        ensures { IsTrue result ↔ Contains self.now.datas octets.now }
    {
        let datas = self.datas();
        for one in datas {
            if *one.octets() == *octets {
                return true;
            }
        }
        false
    }
}

/// A copy of a record's data.
fn copied(one: &Data) -> Result<Data, NoMemory>
    ensures { IfOk result (λ copy. copy ≡ one.now) }
{
    Ok(one.clone()?)
}

/// A copy of a record's owner.
fn owner_of(one: &Record) -> Result<Name, NoMemory>
    ensures { IfOk result (λ name. name ≡ one.now.owner) }
{
    Ok(one.owner().clone()?)
}
