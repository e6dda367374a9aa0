//! Records owner by owner.

ghost use Rattle.std.specs.Prelude.{◌≡◌, ◌≢◌, ◌≤◌, ◌<◌, [], false, length, take, All, IfNone, IfSome, slice_index_or};
ghost use Rattle.std.proofs.Math.Bool.{not};
ghost use Rattle.dsec_spec.specs.Names.{IsAtOrBelow, is_below as below, place, same_place};
ghost use Rattle.dsec_spec.specs.Records as entries;
ghost use Rattle.dsec_sorted.specs.OwnersOf.{AreTogether, IsFirstOwner, IsFrom};

use dsec_name::Name;
use dsec_wire::Record;

/// Goes over records owner by owner, in the order in which they are.
#[derive(Clone, Copy)]
pub struct RecordsIter<'a> {
    rest: &'a [Record],
    ghost together: { AreTogether rest.now },
}

/// The records of one owner.
#[derive(Clone, Copy)]
pub struct OwnerRrs<'a> {
    /// The owner, as the first record has it.
    pub name: &'a Name,
    /// All records of the owner, one at least.
    pub records: &'a [Record],
}

impl<'a> RecordsIter<'a> {
    ghost use Rattle.dsec_sorted.specs.IterViews.{left_of};

    /// Goes over these records; those of one owner are to stand together.
    pub fn new_from_owned(records: &'a [Record]) -> Self
        requires { AreTogether records.now }
        ensures { left_of result ≡ records.now }
    {
        RecordsIter { rest: records }
    }

    /// The records that are left.
    pub fn as_slice(&self) -> &'a [Record]
        ensures { result.now ≡ left_of self.now }
    {
        self.rest
    }

    /// The next owner with all its records. It takes one comparison for each. Behind the last there is none, however often it is asked
    /// for.
    pub fn next(&mut self) -> Option<OwnerRrs<'a>>
        ensures owner { IfSome result (λ it. IsFirstOwner (left_of self.old) it.name.now it.records.now (left_of self.new)) }
        ensures end { IfNone result (left_of self.old ≡ []) }
        ensures ended { IfNone result (left_of self.new ≡ []) }
    {
        let rest = self.rest;
        let Some((first, _)) = rest.split_first() else {
            return None;
        };
        let name = first.owner();
        let (records, after) = rest.split_at(run_length(name, rest));
        self.rest = after;
        Some(OwnerRrs { name, records })
    }

    /// Leaves out the records before the first that stands at or below the name.
    pub fn skip_before(&mut self, name: &Name)
        ensures { IsFrom (place name.now) (left_of self.old) (left_of self.new) }
    {
        let records = self.rest;
        let (_, rest) = records.split_at(length_before(name, records));
        self.rest = rest;
    }
}

/// How many records from the first on stand neither at nor below the name.
fn length_before(name: &Name, records: &[Record]) -> usize
    ensures fits { result ≤ length records.now }
    ensures none { All (λ r. below (place r.owner) (place name.now) ≡ false) (take result records.now) }
    ensures found { (d : entries.Record) → result < length records.now → IsAtOrBelow (place (slice_index_or records.now result d).owner) (place name.now) }
{
    let mut size = 0;
    while size < records.len() && is_outside(records[size].owner(), name) {
        size += 1;
    }
    size
}

/// Whether a name is neither another nor under it.
#[tactic(auto, using(dsec_spec::proofs::SignedTests::below_decides))]
fn is_outside(name: &Name, base: &Name) -> bool
    ensures { result ≡ not (below (place name.now) (place base.now)) }
{
    let is_below = is_below(name, base);
    !is_below
}

/// Whether a name is another, or under it.
#[tactic(auto, using(dsec_spec::proofs::SignedTests::below_decides))]
fn is_below(name: &Name, base: &Name) -> bool
    ensures { result ≡ below (place name.now) (place base.now) }
{
    name.ends_with(base)
}

/// How many records from the first on stand at the name.
fn run_length(name: &Name, records: &[Record]) -> usize
    ensures fits { result ≤ length records.now }
    ensures run { All (λ r. place r.owner ≡ place name.now) (take result records.now) }
    ensures next { (d : entries.Record) → result < length records.now → place (slice_index_or records.now result d).owner ≢ place name.now }
{
    let mut size = 0;
    while size < records.len() && is_same(records[size].owner(), name) {
        size += 1;
    }
    size
}

/// Whether two names are one, ASCII case aside (RFC 4343 3).
fn is_same(a: &Name, b: &Name) -> bool
    ensures { result ≡ same_place (place a.now) (place b.now) }
{
    *a == *b
}
