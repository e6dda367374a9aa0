//! Trust anchors (RFC 4033 2).

ghost use Rattle.std.specs.Prelude.{◌≡◌, ◌+◌, ◌++◌, ◌∷◌, ◌≤◌, [], find, None, Some, IfSome, IsErrOf, OnOk, OnErr};
ghost use Rattle.std.specs.Option.{option_and_then, option_map};
ghost use Rattle.dsec_spec.specs.Islands.{island};
ghost use Rattle.dsec_spec.specs.Names.{place, same_place};
ghost use Rattle.dsec_spec.specs.Numbers.{IN};
ghost use Rattle.dsec_spec.specs.Outside.{Rose};
ghost use Rattle.dsec_spec.specs.Reading.{Gives};
ghost use Rattle.dsec_outside.specs.Ends.{TakesAtMost};
ghost use Rattle.dsec_outside.specs.Limit.{limit};
ghost use Rattle.dsec_anchors.specs.Anchors.{anchor_view, anchors_at};
ghost use Rattle.dsec_anchors.specs.Texts.{CountsReads, added, anchors_in, is_from_outside, wants_memory};

use crate::error::AnchorError;
use crate::island::island_owner;
use crate::text::read_anchors;
use dsec_name::{Name, NoMemory};
use dsec_number::{Class, Rtype};
use dsec_outside::{Source, Stop, read_all};
use dsec_wire::Record;
use std::alloc::Global;
use std::marker::Model;

/// The records that validation starts from: keys, or DS records of keys, that are trusted by what their owner
/// says of them outside DNS. They stay in the order in which they were added.
#[derive(Drop)]
pub struct TrustAnchors {
    records: Vec<Record>,
}

impl Model for TrustAnchors {
    ghost use Rattle.std.specs.Prelude.{List};
    ghost use Rattle.dsec_spec.specs.Records as entries;

    ghost Value = { List entries.Record };

    ghost view = { λ it. it.records.items };
}

impl TrustAnchors {
    /// No anchors.
    pub fn empty(alloc: Global) -> TrustAnchors
        ensures { result ≡ [] }
    {
        TrustAnchors {
            records: Vec::new(alloc),
        }
    }

    /// Adds an anchor.
    pub fn add(&mut self, anchor: Record) -> Result<(), NoMemory>
        ensures ok { OnOk result (self.new ≡ self.old ++ anchor ∷ []) }
        ensures err { OnErr result (self.new ≡ self.old) }
    {
        self.records.push(anchor)?;
        Ok(())
    }

    /// The anchors of a vector.
    pub fn from_vec(records: Vec<Record>) -> TrustAnchors
        ensures { result ≡ records.items }
    {
        TrustAnchors { records }
    }

    /// The anchors of a zone text: all its records, of every type and class, in order. Those that give no class, where none
    /// before them has one, are of class IN. `$INCLUDE` entries are passed over.
    pub fn from_u8(alloc: Global, text: &[u8]) -> Result<TrustAnchors, AnchorError>
        ensures { Gives wants_memory (λ anchors. anchors) result (anchors_in (Some IN) text.now) }
    {
        anchors_of(alloc, Some(Class::IN), text)
    }

    /// Adds the anchors of a zone text, which are those that `from_u8` reads, behind the others: all of them, or none.
    pub fn add_u8(&mut self, text: &[u8]) -> Result<(), AnchorError>
        ensures added { Gives wants_memory (λ _. self.new) result (added self.old (anchors_in (Some IN) text.now)) }
        ensures err { OnErr result (self.new ≡ self.old) }
    {
        let mut records = read_anchors(*self.records.allocator(), Some(Class::IN), text)?;
        self.records.append(&mut records)?;
        Ok(())
    }

    /// The anchors of a source that holds zone text, which is read whole. A record that gives no class, where none before it
    /// has one, is outside the grammar.
    pub fn from_reader<S: Source>(
        alloc: Global,
        source: &mut S,
    ) -> Result<TrustAnchors, AnchorError>
        ensures later { S.faults source.old ≤ S.faults source.new }
        ensures read { IsErrOf result AnchorError.ReadError → Rose (S.faults source.old) (S.faults source.new) }
        ensures counts { CountsReads (S.faults source.old) (S.faults source.new) result }
        ensures within { TakesAtMost (limit + 1) (S.left source.old) (S.left source.new) }
        ensures ended { IsErrOf result AnchorError.ReadError → S.ended source.new ≡ S.ended source.old }
        ensures text { IfSome (S.left source.old) (λ all. Gives is_from_outside (λ anchors. anchors) result (anchors_in None all)) }
    {
        match read_all(alloc, source) {
            Ok(text) => anchors_of(alloc, None, &text),
            Err(Stop::Read) => Err(AnchorError::ReadError),
            Err(Stop::Memory) => Err(AnchorError::NoMemory),
        }
    }

    /// The anchors as a slice.
    pub fn as_slice(&self) -> &[Record]
        ensures { result.now ≡ self.now }
    {
        &self.records
    }

    /// The anchors of an owner, ASCII case aside; none where there are none.
    pub fn find(&self, owner: &Name) -> Option<TrustAnchor<'_>>
        ensures { option_map anchor_view result ≡ anchors_at self.now (place owner.now) }
    {
        let all = self.as_slice();
        match first_at(all, owner) {
            Some(first) => Some(TrustAnchor {
                owner: first.owner(),
                all,
            }),
            None => None,
        }
    }

    /// The anchors of the island of a name and type: those of the longest owner at or above the name, or for DS,
    /// which stands in the zone above, at or above its parent, the root aside (RFC 4033 2, RFC 4035 2.4). It goes
    /// over the anchors twice, and takes no memory.
    pub fn island(&self, name: &Name, rtype: Rtype) -> Option<TrustAnchor<'_>>
        ensures owner { option_map (λ it. place (anchor_view it).owner) result ≡ island self.now (place name.now) rtype }
        ensures anchors { option_map anchor_view result ≡ option_and_then (anchors_at self.now) (island self.now (place name.now) rtype) }
    {
        let owner = island_owner(self.as_slice(), name, rtype)?;
        self.find(owner)
    }
}

/// The anchors of a zone text with this default class.
fn anchors_of(
    alloc: Global,
    default: Option<Class>,
    text: &[u8],
) -> Result<TrustAnchors, AnchorError>
    ensures { Gives wants_memory (λ anchors. anchors) result (anchors_in default text.now) }
{
    match read_anchors(alloc, default, text) {
        Ok(records) => Ok(TrustAnchors { records }),
        Err(error) => Err(error),
    }
}

/// The first record at an owner.
fn first_at<'a>(all: &'a [Record], owner: &Name) -> Option<&'a Record>
    ensures { option_map (λ one. one.now) result ≡ find (λ one. same_place (place one.owner) (place owner.now)) all.now }
{
    all.iter().find(|one| is_at(one, owner))
}

/// Whether a record stands at an owner.
fn is_at(one: &Record, owner: &Name) -> bool
    ensures { result ≡ same_place (place one.now.owner) (place owner.now) }
{
    *one.owner() == *owner
}

/// The anchors of one owner, in the order in which they were added.
#[derive(Clone, Copy)]
pub struct TrustAnchor<'a> {
    owner: &'a Name,
    // The anchors of all owners.
    all: &'a [Record],
}

impl<'a> TrustAnchor<'a> {
    ghost use Rattle.std.specs.Prelude.{◌≡◌};
    ghost use Rattle.dsec_anchors.specs.Anchors.{anchor_view, left_of};

    /// The owner, as the first of the anchors writes it.
    pub fn owner(&self) -> &'a Name
        ensures { result.now ≡ (anchor_view self.now).owner }
    {
        self.owner
    }

    /// The anchors, to be taken one by one.
    pub fn iter(&self) -> AnchorRecords<'a>
        ensures { left_of result ≡ (anchor_view self.now).records }
    {
        AnchorRecords {
            owner: self.owner,
            rest: self.all,
        }
    }
}

/// The anchors of one owner that weren't taken yet.
#[derive(Clone, Copy)]
pub struct AnchorRecords<'a> {
    owner: &'a Name,
    rest: &'a [Record],
}

impl<'a> AnchorRecords<'a> {
    ghost use Rattle.std.specs.Prelude.{◌≡◌, ◌↔◌, [], ◌∷◌, None, IfNone, IfSome};
    ghost use Rattle.dsec_anchors.specs.Anchors.{left_of};

    /// Takes the next anchor.
    pub fn next(&mut self) -> Option<&'a Record>
        ensures taken { IfSome result (λ one. left_of self.old ≡ one.now ∷ left_of self.new) }
        ensures end { result ≡ None ↔ (left_of self.old ≡ []) }
        ensures ended { IfNone result (left_of self.new ≡ []) }
        ensures owner { self.new.owner.now ≡ self.old.owner.now }
    {
        while let Some((one, rest)) = self.rest.split_first() {
            self.rest = rest;
            if is_at(one, self.owner) {
                return Some(one);
            }
        }
        None
    }
}
