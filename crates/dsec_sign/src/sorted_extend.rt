//! Records that others can be added to in canonical order.

ghost use Rattle.std.specs.Prelude.{◌≡◌, List, OnErr, OnOk};
ghost use Rattle.dsec_spec.specs.Records as entries;
ghost use Rattle.dsec_spec.specs.SignedZones.{IsUnion};

use dsec_name::NoMemory;
use dsec_sorted::{SortedRecords, extend_sorted};
use dsec_wire::Record;

/// Records that others can be added to in canonical order.
pub trait SortedExtend {
    /// The records.
    ghost records: { Self → List entries.Record };

    /// Adds records, of duplicates the first alone, and brings all into canonical order; a refusal changes nothing.
    fn sorted_extend(&mut self, added: Vec<Record>) -> Result<(), NoMemory>
        ensures ok { OnOk result (IsUnion (records self.old) added.items (records self.new)) }
        ensures err { OnErr result (records self.new ≡ records self.old) };
}

impl SortedExtend for Vec<Record> {
    ghost records = { λ it. it.items };

    fn sorted_extend(&mut self, added: Vec<Record>) -> Result<(), NoMemory> {
        extend_sorted(self, added)
    }
}

impl SortedExtend for SortedRecords {
    ghost records = { λ it. it };

    fn sorted_extend(&mut self, added: Vec<Record>) -> Result<(), NoMemory> {
        self.extend(added)
    }
}
