//! What the lines so far leave for those that follow (RFC 1035 5.1, RFC 2308 4).

ghost use Rattle.std.specs.Prelude.{◌≡◌, IfOk, Some};
ghost use Rattle.dsec_zonefile.specs.Places.{before_in, setting_or, with_before};
ghost use Rattle.dsec_zonefile.specs.Setting.{after, as_before, at_first, class_for as class_by, ttl_for as ttl_by};

use crate::entry::Entry;
use dsec_name::{Name, NoMemory};
use dsec_number::{Class, Ttl};
use dsec_wire::Record;
use std::alloc::Global;

/// What the record before leaves.
#[derive(Drop)]
pub struct Before {
    pub owner: Name,
    pub ttl: Ttl,
    pub class: Class,
}

/// What the lines so far leave for those that follow.
#[derive(Drop)]
pub struct Setting {
    /// What names are relative to.
    pub origin: Name,
    /// The TTL of `$TTL`, if there was one.
    pub ttl: Option<Ttl>,
    /// The record before, if there was one.
    pub before: Option<Before>,
    /// The class of records where no class was given yet.
    pub class: Option<Class>,
}

/// What a line says.
#[derive(Drop)]
pub enum Said {
    /// `$ORIGIN`
    Origin(Name),
    /// `$TTL`
    Ttl(Ttl),
    /// A record, or `$INCLUDE`.
    Entry(Entry),
}

impl Before {
    /// The same once more.
    fn duplicate(&self) -> Result<Before, NoMemory>
        ensures { IfOk result (λ copy. copy ≡ self.now) }
    {
        Ok(Before {
            owner: self.owner.clone()?,
            ttl: self.ttl,
            class: self.class,
        })
    }

    /// A record, as the one before.
    fn of(it: &Record) -> Result<Before, NoMemory>
        ensures { IfOk result (λ before. before ≡ as_before it.now) }
    {
        Ok(Before {
            owner: it.owner().clone()?,
            ttl: it.ttl(),
            class: it.class(),
        })
    }
}

/// An entry as the record before, if it is a record.
pub fn before_of(entry: &Option<Entry>) -> Result<Option<Before>, NoMemory>
    ensures { IfOk result (λ before. before ≡ before_in entry.now) }
{
    match entry {
        Some(Entry::Record(record)) => Ok(Some(Before::of(record)?)),
        Some(Entry::Include { .. }) | None => Ok(None),
    }
}

impl Setting {
    /// Before the first line.
    pub fn new(alloc: Global) -> Setting
        ensures { result ≡ at_first }
    {
        Setting {
            origin: Name::root(alloc),
            ttl: None,
            before: None,
            class: None,
        }
    }

    /// The TTL of a record, by its own, if it has one.
    pub fn ttl_for(&self, own: Option<Ttl>) -> Ttl
        ensures { result ≡ ttl_by self.now own }
    {
        if let Some(ttl) = own {
            return ttl;
        }
        if let Some(ttl) = self.ttl {
            return ttl;
        }
        match &self.before {
            Some(before) => before.ttl,
            None => Ttl::ZERO,
        }
    }

    /// The class of a record, by its own, if it has one; none where none is known.
    pub fn class_for(&self, own: Option<Class>) -> Option<Class>
        ensures { result ≡ class_by self.now own }
    {
        if own.is_some() {
            return own;
        }
        match &self.before {
            Some(before) => Some(before.class),
            None => self.class,
        }
    }

    /// The same setting with another origin.
    pub fn with_origin(&self, origin: Name) -> Result<Setting, NoMemory>
        ensures { IfOk result (λ setting. setting ≡ after self.now (Said.Origin origin)) }
    {
        Ok(Setting {
            origin,
            ttl: self.ttl,
            before: self.duplicate_before()?,
            class: self.class,
        })
    }

    /// The same setting with another TTL of `$TTL`.
    pub fn with_ttl(&self, ttl: Ttl) -> Result<Setting, NoMemory>
        ensures { IfOk result (λ setting. setting ≡ after self.now (Said.Ttl ttl)) }
    {
        Ok(Setting {
            origin: self.origin.clone()?,
            ttl: Some(ttl),
            before: self.duplicate_before()?,
            class: self.class,
        })
    }

    /// The record before once more.
    fn duplicate_before(&self) -> Result<Option<Before>, NoMemory>
        ensures { IfOk result (λ copy. copy ≡ self.now.before) }
    {
        match &self.before {
            Some(before) => Ok(Some(before.duplicate()?)),
            None => Ok(None),
        }
    }

    /// Becomes another setting, if there is one.
    pub fn change(&mut self, changed: Option<Setting>)
        ensures { self.new ≡ setting_or self.old changed }
    {
        let Some(setting) = changed else {
            return;
        };
        *self = setting;
    }

    /// Puts another record before, if there is one.
    pub fn put_before(&mut self, before: Option<Before>)
        ensures { self.new ≡ with_before self.old before }
    {
        if before.is_some() {
            self.before = before;
        }
    }
}
