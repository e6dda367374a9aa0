//! Places in a text, and the way from one entry to the next.

ghost use Rattle.std.specs.Prelude.{◌≡◌, ◌+◌, ◌-◌, ◌<◌, ◌^◌, length, IfOk};
ghost use Rattle.dsec_zonefile.specs.Places.{Finds, IsSized, IsWithin, Steps, before_in, behind_record, led, place_behind, reader_at, setting_or, with_before};
ghost use Rattle.dsec_zonefile.specs.Setting.{after, entry_of};

use crate::entry::Entry;
use crate::error::ZonefileError;
use crate::setting::{Before, Said, Setting};
use crate::step::{Ahead, Step, read_step};
use dsec_name::NoMemory;
use std::alloc::Global;

/// A place in a text, and the setting there.
#[derive(Drop)]
pub struct Place {
    /// How many octets stand before it.
    pub at: usize,
    /// How many line ends stand before it.
    pub lines: usize,
    /// What the lines before it leave.
    pub setting: Setting,
    /// The line where what was read last begins.
    pub begun: usize,
}

/// The way from one place to another.
#[derive(Drop)]
pub struct Way {
    /// How many octets stand before the other place.
    pub at: usize,
    /// How many line ends stand before it.
    pub lines: usize,
    /// The setting that control lines on the way made, if there were any.
    pub changed: Option<Setting>,
    /// The line where what was read last begins.
    pub begun: usize,
}

impl Place {
    /// Goes a way, and behind the record there, if there is one.
    pub fn go(&mut self, way: Way, before: Option<Before>)
        ensures { self.new ≡ behind_record (led self.old way) before }
    {
        self.at = way.at;
        self.lines = way.lines;
        self.begun = way.begun;
        self.setting.change(way.changed);
        self.setting.put_before(before);
    }
}

/// The next entry of a text from a place on, and the way to the place where it ends; or the end, and the way to it. Nothing is
/// changed before all is read, so that a call that wants memory leaves no trace.
pub fn find(
    alloc: Global,
    text: &[u8],
    start: &Place,
) -> Result<(Option<Entry>, Way), ZonefileError>
    requires within { IsWithin text.now start.now }
    requires small { length text.now < 2 ^ 63 }
    ensures found { Finds text.now start.now result }
    ensures place { IfOk result (λ found. IsWithin text.now (led start.now found.1)) }
{
    let mut way = Way {
        at: start.at,
        lines: start.lines,
        changed: None,
        begun: start.begun,
    };
    loop {
        match look(alloc, text, start, &way)? {
            Ahead::Step(step) => {
                let (next, entry) = way.behind(start, step)?;
                way = next;
                if let Some(entry) = entry {
                    return Ok((Some(entry), way));
                }
            }
            Ahead::End { lines } => {
                way.at = text.len();
                way.lines += lines;
                return Ok((None, way));
            }
        }
    }
}

/// What stands ahead on a way.
fn look(alloc: Global, text: &[u8], start: &Place, way: &Way) -> Result<Ahead, ZonefileError>
    requires within { IsWithin text.now (led start.now way.now) }
    requires small { length text.now < 2 ^ 63 }
    ensures exact { Steps (reader_at text.now (led start.now way.now)) result }
    ensures sized { IfOk result (λ ahead. IsSized (length text.now - way.now.at) ahead) }
{
    let setting = setting_of(&way.changed, &start.setting);
    read_step(alloc, way.lines, setting, &text[way.at..])
}

impl Way {
    /// The way on behind what a line says, and the entry that it gives.
    fn behind(self, start: &Place, step: Step) -> Result<(Way, Option<Entry>), NoMemory>
        requires octets { self.at + step.octets < 2 ^ 63 }
        requires lines { self.lines + step.lines < 2 ^ 63 }
        ensures place { IfOk result (λ found. place_behind (led start.now self) step ≡ behind_record (led start.now found.0) (before_in found.1)) }
        ensures entry { IfOk result (λ found. found.1 ≡ entry_of step.said) }
    {
        let at = self.at + step.octets;
        let lines = self.lines + step.lines;
        let begun = step.begins;
        let (changed, entry) = said_on(self.changed, &start.setting, step.said)?;
        Ok((
            Way {
                at,
                lines,
                changed,
                begun,
            },
            entry,
        ))
    }
}

/// The setting that control lines made, and the entry that a line gives.
fn said_on(
    changed: Option<Setting>,
    before: &Setting,
    said: Said,
) -> Result<(Option<Setting>, Option<Entry>), NoMemory>
    ensures setting { IfOk result (λ left.
        after (setting_or before.now changed) said ≡ with_before (setting_or before.now left.0) (before_in left.1)) }
    ensures entry { IfOk result (λ left. left.1 ≡ entry_of said) }
{
    match said {
        Said::Origin(origin) => {
            let setting = setting_of(&changed, before).with_origin(origin)?;
            Ok((Some(setting), None))
        }
        Said::Ttl(ttl) => {
            let setting = setting_of(&changed, before).with_ttl(ttl)?;
            Ok((Some(setting), None))
        }
        Said::Entry(entry) => Ok((changed, Some(entry))),
    }
}

/// The setting that control lines made, or the one before them.
fn setting_of<'a>(changed: &'a Option<Setting>, before: &'a Setting) -> &'a Setting
    ensures { result.now ≡ setting_or before.now changed.now }
{
    match changed {
        Some(setting) => setting,
        None => before,
    }
}
