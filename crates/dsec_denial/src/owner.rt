//! The owners of NSEC3 records: a label that writes a hash, before the zone's name (RFC 5155 3, 3.3).

ghost use Rattle.std.specs.Prelude.{◌≡◌, ◌≤◌, ◌∷◌, ◌++◌, List, ℕ, IfOk, length};
ghost use Rattle.dsec_nodes.specs.MissingByHash.{is_label_before as label_before, owner_hash_in as hash_in};
ghost use Rattle.dsec_spec.specs.Base32hex.{octets_in_base32hex};
ghost use Rattle.dsec_spec.specs.Names.{place};

use dsec_chain::is_same;
use dsec_name::{Name, NoMemory};
use dsec_nsec3_hash::nsec3_label_to_hash;
use dsec_sorted::OwnerHash;
use std::alloc::Global;

/// Whether an owner is a label before the zone's name.
pub(crate) fn is_label_before(owner: &Name, apex: &Name) -> Result<bool, NoMemory>
    ensures { IfOk result (λ yes. yes ≡ label_before (place apex.now) owner.now) }
{
    match owner.parent()? {
        Some(above) => Ok(is_same(&above, apex)),
        None => Ok(false),
    }
}

/// The hash that an owner's first label writes.
#[tactic(auto, using(crate::proofs::OwnerLaws::root_writes_none))]
pub(crate) fn owner_hash_in(alloc: Global, owner: &Name) -> Result<Option<OwnerHash>, NoMemory>
    ensures { IfOk result (λ hash. hash ≡ hash_in owner.now) }
{
    if owner.is_root() {
        return Ok(None);
    }
    let mut octets = Vec::new(alloc);
    owner.compose(&mut octets)?;
    Ok(hash_at_front(&octets))
}

/// The hash that the first label of a name on the wire writes.
fn hash_at_front(octets: &[u8]) -> Option<OwnerHash>
    ensures { (label rest : List ℕ) → octets.now ≡ length label ∷ label ++ rest → length label ≤ 63 → result ≡ octets_in_base32hex label }
{
    let (&size, after) = octets.split_first()?;
    let (label, _) = after.split_at(usize::from(size).min(after.len()));
    nsec3_label_to_hash(label).ok()
}
