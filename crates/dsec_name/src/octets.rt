//! Octet strings.

ghost use Rattle.std.specs.Prelude.{◌≡◌, length, IsTrue, ◌↔◌, []};

use std::cmp::Ordering;
use std::hash::{Hash, Hasher};
use std::marker::Model;

/// Octets, which a clause sees as their list. They are ordered as octet strings: at the first octet in
/// which two differ, and otherwise the shorter first.
#[derive(Clone, Debug, Drop)]
pub struct Octets {
    items: Vec<u8>,
}

impl Model for Octets {
    ghost use Rattle.std.specs.Prelude.{List, ℕ};

    ghost Value = { List ℕ };

    ghost view = { λ octets. octets.items.items };
}

impl Octets {
    /// The octets of a vector.
    pub fn new(items: Vec<u8>) -> Octets
        ensures { result ≡ items.items }
    {
        Octets { items }
    }

    /// The octets as a slice.
    pub fn as_slice(&self) -> &[u8]
        ensures { result.now ≡ self.now }
    {
        &self.items
    }

    /// How many octets there are.
    pub fn len(&self) -> usize
        ensures { result ≡ length self.now }
    {
        self.items.len()
    }

    /// Whether there is no octet.
    pub fn is_empty(&self) -> bool
        ensures { IsTrue result ↔ (self.now ≡ []) }
    {
        self.items.is_empty()
    }

    /// The vector that the octets are kept in.
    pub fn into_vec(self) -> Vec<u8>
        ensures { result.items ≡ self }
    {
        self.items
    }
}

impl From<Vec<u8>> for Octets {
    ghost use Rattle.std.specs.Prelude.{◌≡◌};

    ghost from_gives = { λ items octets. octets ≡ items.items };

    fn from(items: Vec<u8>) -> Octets {
        Octets::new(items)
    }
}

impl PartialEq for Octets {
    ghost use Rattle.std.specs.Str.{bytes_eq};
    ghost use Rattle.std.proofs.Common.{rules};
    ghost use Rattle.std.specs.Cmp.Rules.{comparing};

    ghost eq = { bytes_eq };

    ghost laws = { Prim.search (comparing, rules) };

    fn eq(&self, other: &Self) -> bool {
        self.items == other.items
    }
}

impl Eq for Octets {
    ghost use Rattle.std.proofs.Common.{rules};
    ghost use Rattle.std.specs.Cmp.Rules.{comparing};

    ghost laws = { Prim.search (comparing, rules) };
}

impl Ord for Octets {
    ghost use Rattle.std.specs.Ordering.{nat_cmp};
    ghost use Rattle.std.specs.Cmp.Lexicographic.{slice_cmp};
    ghost use Rattle.std.proofs.Common.{rules};
    ghost use Rattle.std.specs.Cmp.Rules.{comparing};

    ghost cmp = { slice_cmp nat_cmp };

    ghost total = { Prim.search (comparing, rules) };

    ghost matches_partial_cmp = { Prim.search (comparing, rules) };

    ghost matches_eq = { Prim.search (comparing, rules) };

    fn cmp(&self, other: &Self) -> Ordering {
        self.items.cmp(&other.items)
    }
}

impl PartialOrd for Octets {
    ghost use Rattle.std.specs.Ordering.{nat_cmp, as_partial_cmp};
    ghost use Rattle.std.specs.Cmp.Lexicographic.{slice_cmp};
    ghost use Rattle.std.specs.Cmp.{partial_order_from_own_ties};
    ghost use Rattle.std.proofs.Common.{rules};
    ghost use Rattle.std.specs.Cmp.Rules.{comparing};

    ghost partial_cmp = { as_partial_cmp (slice_cmp nat_cmp) };

    ghost laws = { partial_order_from_own_ties (Prim.search (comparing, rules)) (Prim.search (comparing, rules)) };

    fn partial_cmp(&self, other: &Self) -> Option<Ordering> {
        Some(self.cmp(other))
    }
}

impl Hash for Octets {
    ghost use Rattle.std.specs.Prelude.{[], ◌∷◌};
    ghost use Rattle.dsec_name.specs.OctetsLaws.{octets_hash_respects};

    ghost hash_input = { λ octets. octets ∷ [] };

    ghost respects_eq = { octets_hash_respects };

    fn hash<H: Hasher>(&self, state: &mut H) {
        state.write(&self.items);
    }
}
