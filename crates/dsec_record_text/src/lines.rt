//! Lines of records that come one after the other, mostly several of one owner.

ghost use Rattle.std.specs.Prelude.{◌≡◌, ◌++◌, IfOk, OnOk};
ghost use Rattle.dsec_name.specs.NameDisplay.{name_text};
ghost use Rattle.dsec_record_text.specs.Owners.{text_or};
ghost use Rattle.dsec_record_text.specs.RecordText.{record_line};

use crate::record_line::push_line_of;
use dsec_name::{Name, NoMemory};
use dsec_wire::Record;
use dsec_word::push_name;
use std::alloc::Global;

/// The owner that was written last, with its text, which the next line begins with too where its owner has the same octets.
#[derive(Drop)]
pub(crate) struct Lines<'a> {
    owner: Option<&'a Name>,
    text: Vec<u8>,
    ghost shown: { text_or owner text.items ≡ text.items },
}

impl<'a> Lines<'a> {
    /// Before the first line.
    pub(crate) fn new(alloc: Global) -> Lines<'a> {
        Lines {
            owner: None,
            text: Vec::new(alloc),
        }
    }

    /// Adds the line of the next record.
    pub(crate) fn push(self, out: &mut Vec<u8>, it: &'a Record) -> Result<Lines<'a>, NoMemory>
        ensures { OnOk result (out.new.items ≡ out.old.items ++ record_line it.now) }
    {
        let lines = self.at(it.owner())?;
        push_line_of(out, &lines.text, it)?;
        Ok(lines)
    }

    /// The owner of the next line.
    fn at(self, owner: &'a Name) -> Result<Lines<'a>, NoMemory>
        ensures { IfOk result (λ lines. lines.text.items ≡ name_text owner.now) }
    {
        if let Some(last) = self.owner {
            if last.is_identical(owner) {
                return Ok(self);
            }
        }
        let mut text = self.text;
        text.clear();
        push_name(&mut text, owner)?;
        Ok(Lines {
            owner: Some(owner),
            text,
        })
    }
}
