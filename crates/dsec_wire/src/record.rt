//! Records and questions.

ghost use Rattle.std.specs.Prelude.{◌≡◌};
ghost use Rattle.dsec_spec.specs.RecordData.{IsReadable};
ghost use Rattle.dsec_wire.specs.TypedData.{data_of};

use crate::data::Data;
use dsec_name::Name;
use dsec_number::{Class, Rtype, Ttl};
use std::alloc::AllocError;
use std::marker::Model;

/// A resource record (RFC 1035 3.2.1).
#[derive(Clone, Drop)]
pub struct Record {
    owner: Name,
    class: Class,
    ttl: Ttl,
    rdata: Data,
}

impl Model for Record {
    ghost use Rattle.dsec_spec.specs.Records as records;

    ghost Value = { records.Record };

    ghost view = { λ it. record { owner = it.owner; class = it.class; rtype = it.rdata.rtype; ttl = it.ttl; rdata = it.rdata.octets } };
}

impl Record {
    /// A record; its type is that of the data.
    pub fn new(owner: Name, class: Class, ttl: Ttl, rdata: Data) -> Record
        ensures { result ≡ record { owner = owner; class = class; rtype = rdata.rtype; ttl = ttl; rdata = rdata.octets } }
    {
        Record {
            owner,
            class,
            ttl,
            rdata,
        }
    }

    /// The name that the record stands at.
    pub fn owner(&self) -> &Name
        ensures { result.now ≡ self.now.owner }
    {
        &self.owner
    }

    /// The record's class.
    pub fn class(&self) -> Class
        ensures { result ≡ self.now.class }
    {
        self.class
    }

    /// How many seconds the record may be kept.
    pub fn ttl(&self) -> Ttl
        ensures { result ≡ self.now.ttl }
    {
        self.ttl
    }

    /// The record's type, which is that of its data.
    pub fn rtype(&self) -> Rtype
        ensures { result ≡ self.now.rtype }
    {
        self.rdata.rtype()
    }

    /// The data, which are readable by the record's type.
    pub fn rdata(&self) -> &Data
        ensures value { result.now ≡ data_of self.now }
        ensures readable { IsReadable self.now.rtype self.now.rdata }
    {
        let rdata = &self.rdata;
        let _readable = rdata.octets();
        rdata
    }
}

/// A question (RFC 1035 4.1.2).
#[derive(Drop)]
pub struct Question {
    qname: Name,
    qtype: Rtype,
    qclass: Class,
}

impl Model for Question {
    ghost use Rattle.dsec_spec.specs.Messages as messages;

    ghost Value = { messages.Question };

    ghost view = { λ it. record { name = it.qname; rtype = it.qtype; class = it.qclass } };
}

impl Clone for Question {
    ghost use Rattle.std.specs.Prelude.{◌≡◌};

    ghost is_clone = { λ old new. new ≡ old };

    fn clone(&self) -> Result<Question, AllocError> {
        let qname = self.qname.clone()?;
        Ok(Question {
            qname,
            qtype: self.qtype,
            qclass: self.qclass,
        })
    }
}

impl Question {
    /// A question.
    pub fn new(qname: Name, qtype: Rtype, qclass: Class) -> Question
        ensures { result ≡ record { name = qname; rtype = qtype; class = qclass } }
    {
        Question {
            qname,
            qtype,
            qclass,
        }
    }

    /// The name that is asked for.
    pub fn qname(&self) -> &Name
        ensures { result.now ≡ self.now.name }
    {
        &self.qname
    }

    /// The type that is asked for.
    pub fn qtype(&self) -> Rtype
        ensures { result ≡ self.now.rtype }
    {
        self.qtype
    }

    /// The class that is asked for.
    pub fn qclass(&self) -> Class
        ensures { result ≡ self.now.class }
    {
        self.qclass
    }
}
