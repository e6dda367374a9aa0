//! How names compare: ASCII case aside, and in the canonical order (RFC 4034 6.1, RFC 4343 3).

ghost use Rattle.dsec_spec.specs.Names.{name_cmp};

use crate::compare::same_ignoring_case;
use crate::name::Name;
use std::cmp::Ordering;
use std::hash::{Hash, Hasher};

impl PartialEq for Name {
    ghost use Rattle.dsec_name.specs.NameLaws.{name_eq_partial};
    ghost use Rattle.dsec_name.specs.Parts.{same_name};

    ghost eq = { same_name };

    ghost laws = { name_eq_partial };

    fn eq(&self, other: &Self) -> bool {
        same_ignoring_case(self.octets(), other.octets())
    }
}

impl Eq for Name {
    ghost use Rattle.dsec_name.specs.NameLaws.{name_eq_equiv};

    ghost laws = { name_eq_equiv };
}

impl Ord for Name {
    ghost use Rattle.dsec_name.specs.NameLaws.{name_total, name_agrees, name_ties};

    ghost cmp = { name_cmp };

    ghost total = { name_total };

    ghost matches_partial_cmp = { name_agrees };

    ghost matches_eq = { name_ties };

    fn cmp(&self, other: &Self) -> Ordering {
        self.canonical_cmp(other)
    }
}

impl PartialOrd for Name {
    ghost use Rattle.std.specs.Ordering.{as_partial_cmp};
    ghost use Rattle.dsec_name.specs.NameLaws.{name_partial};

    ghost partial_cmp = { as_partial_cmp name_cmp };

    ghost laws = { name_partial };

    fn partial_cmp(&self, other: &Self) -> Option<Ordering> {
        Some(self.canonical_cmp(other))
    }
}

impl Hash for Name {
    ghost use Rattle.std.specs.Prelude.{[], ◌∷◌};
    ghost use Rattle.dsec_spec.specs.Names.{canonical_octets};
    ghost use Rattle.dsec_name.specs.NameLaws.{name_hash_respects};

    ghost hash_input = { λ name. canonical_octets name ∷ [] };

    ghost respects_eq = { name_hash_respects };

    fn hash<H: Hasher>(&self, state: &mut H) {
        state.write(self.canonical_octets().as_slice());
    }
}
