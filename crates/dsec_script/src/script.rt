//! Whole scripts.

ghost use Rattle.std.specs.Prelude.{◌≡◌, ◌≤◌, length, OnOk};
ghost use Rattle.dsec_outside.specs.Limit.{limit};
ghost use Rattle.dsec_outside.specs.Replies.{kept_reply};
ghost use Rattle.dsec_spec.specs.Reading.{Gives};
ghost use Rattle.dsec_script.specs.Place.{wants_memory};
ghost use Rattle.dsec_script.specs.Script.{nothing, parts_view, plus, script_in, script_of};
ghost use Rattle.dsec_script.specs.Text.{lines_of};

use crate::error::{ScriptError, Word};
use crate::items::{Item, Items};
use crate::line::Line;
use crate::place::{Place, read_line, refused};
use crate::text::first_line;
use dsec_name::{NoMemory, Octets};
use dsec_outside::{LIMIT, Replies, line_past};
use dsec_wire::{Record, Records};
use std::alloc::Global;

/// What a script says.
#[derive(Drop)]
pub struct Script {
    /// The trust anchors, of any type and class, in order.
    pub anchors: Records,
    /// What is replied to questions.
    pub replies: Replies,
    /// The messages, each with its moment.
    pub items: Items,
}

/// A script's octets as what they say, or the first line that is refused.
#[tactic(auto, unfolding(crate::specs::Script::script_of))]
pub fn read_script(alloc: Global, octets: &[u8]) -> Result<Script, ScriptError>
    ensures { Gives wants_memory (λ script. script) result (script_of octets.now) }
{
    if octets.len() > LIMIT {
        return Err(refused(line_past(octets), Word::Size));
    }
    match read_lines(alloc, octets) {
        Ok(parts) => Ok(Script {
            anchors: Records::new(parts.anchors),
            replies: parts.replies,
            items: Items::new(parts.items),
        }),
        Err(error) => Err(error),
    }
}

/// What the lines have said so far.
#[derive(Drop)]
struct Parts {
    anchors: Vec<Record>,
    replies: Replies,
    items: Vec<Item>,
}

impl Parts {
    /// Nothing.
    fn new(alloc: Global) -> Parts
        ensures { parts_view result ≡ nothing }
    {
        Parts {
            anchors: Vec::new(alloc),
            replies: Replies::new(alloc),
            items: Vec::new(alloc),
        }
    }

    /// Adds what a line says at its place.
    fn add(&mut self, place: Place, said: Line) -> Result<(), NoMemory>
        ensures { OnOk result (parts_view self.new ≡ plus (parts_view self.old) place said) }
    {
        match said {
            Line::Passed | Line::Now(_) => {}
            Line::Anchors(records) => self.anchors.append(&mut records.into_vec())?,
            Line::Reply(name, rtype, kept) => self.replies.add(name, rtype, vector(kept))?,
            Line::Message(octets) => self.items.push(Item {
                seconds: place.moment(),
                opens: place.opens(),
                octets,
            })?,
        }
        Ok(())
    }
}

/// The vector of a reply's octets.
fn vector(kept: Option<Octets>) -> Option<Vec<u8>>
    ensures { kept_reply result ≡ kept }
{
    match kept {
        Some(octets) => Some(octets.into_vec()),
        None => None,
    }
}

/// What the lines of a text say.
fn read_lines(alloc: Global, text: &[u8]) -> Result<Parts, ScriptError>
    requires { length text.now ≤ limit }
    ensures { Gives wants_memory parts_view result (script_in (lines_of text.now)) }
{
    let mut parts = Parts::new(alloc);
    let mut place = Place::Start;
    let mut number = 1;
    let mut rest = text;
    while !rest.is_empty() {
        let (line, after) = first_line(rest);
        let said = read_line(alloc, number, place, line)?;
        let next = place.after(&said);
        parts.add(place, said)?;
        place = next;
        number += 1;
        rest = after;
    }
    match place {
        Place::Start => Err(refused(number, Word::End)),
        Place::Head(_) | Place::Turn(_) | Place::Body(_) => Ok(parts),
    }
}
