//! Zone text, read entry by entry.

ghost use Rattle.std.specs.Prelude.{◌≡◌, ◌≤◌, ◌+◌, ◌++◌, [], None, Some, OnErr, OnOk, drop, length};
ghost use Rattle.dsec_zonefile.specs.Entries.{Answers};
ghost use Rattle.dsec_zonefile.specs.Setting.{at_first};

use crate::entry::Entry;
use crate::error::{InplaceError, ZonefileError};
use crate::place::{Place, find};
use crate::setting::{Setting, before_of};
use dsec_name::NoMemory;
use dsec_number::Class;
use std::alloc::Global;
use std::marker::Model;

/// Zone text that is read entry by entry (RFC 1035 5.1). Text may be given in pieces, also between entries; each call reads
/// what is there as if the text ended with it, so a piece ends where a line does.
#[derive(Drop)]
pub struct Zonefile {
    text: Vec<u8>,
    place: Place,
    refused: Option<usize>,
}

impl Model for Zonefile {
    ghost use Rattle.std.specs.Prelude.{◌≤◌, drop, vec_len};
    ghost use Rattle.dsec_zonefile.specs.Entries as entries;
    ghost use Rattle.dsec_zonefile.specs.Places.{IsWithin};

    ghost Value = { entries.HeldText };

    ghost view = { λ it. record {
      reader = record { text = drop it.place.at it.text.items; passed = it.place.lines; setting = it.place.setting; refused = it.refused; begun = it.place.begun };
      kept = it.place.at;
    } };

    ghost invariant = { λ it. IsWithin it.text.items it.place };
}

/// How many line ends are counted at most.
const MOST_LINE_ENDS: usize = usize::MAX / 2;

impl Zonefile {
    /// No text, no class, and the root for the origin.
    pub fn new(alloc: Global) -> Self
        ensures { result ≡ record {
          reader = record { text = []; passed = 0; setting = at_first; refused = None; begun = 0 };
          kept = 0;
        } }
    {
        Zonefile {
            text: Vec::new(alloc),
            place: Place {
                at: 0,
                lines: 0,
                setting: Setting::new(alloc),
                begun: 0,
            },
            refused: None,
        }
    }

    /// Sets the class of records that give none, as long as no record before them has one.
    pub fn set_default_class(&mut self, class: Class)
        ensures { self.new ≡ record self.old { reader = record self.old.reader { setting = record self.old.reader.setting { class = Some class } } } }
    {
        self.place.setting.class = Some(class);
    }

    /// Adds more text after what is there. Before that, whatever the answer, what was read is given up where it is more than what is
    /// left, so that text that is added piece by piece, as it is read, takes memory in proportion to what is not read yet. Text with
    /// more line ends than a number can count wants memory too.
    pub fn extend_from_slice(&mut self, more: &[u8]) -> Result<(), NoMemory>
        ensures ok { OnOk result (self.new.reader ≡ record self.old.reader { text = self.old.reader.text ++ more.now }) }
        ensures err { OnErr result (self.new.reader ≡ self.old.reader) }
        ensures kept { self.new.kept ≤ length self.old.reader.text }
        ensures no_more { self.new.kept ≤ self.old.kept }
    {
        let left = self.text.len() - self.place.at;
        give_up_read(&mut self.text, &mut self.place.at);
        if more.len() > MOST_LINE_ENDS - (self.place.lines + left) {
            return Err(NoMemory);
        }
        self.text.extend_from_slice(more)?;
        Ok(())
    }

    /// The line where the entry begins that was given last; once no entry is left, that of the last line that said something; 0 before
    /// any. The first line has the number 1, and lines that are passed over count.
    pub fn line(&self) -> usize
        ensures { result ≡ self.now.reader.begun }
    {
        self.place.begun
    }

    /// The next entry; none where no entry is left, and then the text that was left is passed. What is passed is kept until more text
    /// is added. A refusal is answered again at each later call.
    pub fn next_entry(&mut self) -> Result<Option<Entry>, ZonefileError>
        ensures next { Answers self.old.reader result self.new.reader }
        ensures kept { self.new.kept + length self.new.reader.text ≡ self.old.kept + length self.old.reader.text }
    {
        if let Some(line) = self.refused {
            return Err(ZonefileError::Inplace(InplaceError { line }));
        }
        match find(*self.text.allocator(), &self.text, &self.place) {
            Ok((entry, way)) => {
                let before = before_of(&entry)?;
                self.place.go(way, before);
                Ok(entry)
            }
            Err(ZonefileError::Inplace(error)) => {
                self.refused = Some(error.line);
                Err(ZonefileError::Inplace(error))
            }
            Err(ZonefileError::NoMemory) => Err(ZonefileError::NoMemory),
        }
    }
}

/// Gives up the octets before a place, where they are more than those from it on: so each octet that stays is moved for one
/// that goes, and the moves of all calls together are no more than the octets that were read.
pub(crate) fn give_up_read(text: &mut Vec<u8>, at: &mut usize)
    requires { at.old ≤ length text.old.items }
    ensures left { drop at.new text.new.items ≡ drop at.old text.old.items }
    ensures half { at.new + at.new ≤ length text.new.items }
    ensures no_more { at.new ≤ at.old }
{
    if *at > text.len() - *at {
        text.drain(..*at);
        *at = 0;
    }
}
