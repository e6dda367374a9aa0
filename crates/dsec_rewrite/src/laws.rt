//! Laws of rewriting, for whoever relies on the message that is left.

ghost use Rattle.std.specs.Prelude.{◌≡◌, List, ℕ, map, None, Some, Ok};
ghost use Rattle.dsec_spec.specs.Groups as grouping;
ghost use Rattle.dsec_spec.specs.Groups.{set_in};
ghost use Rattle.dsec_spec.specs.Lasting.{adjusted_ttl, ttl_for_sig};
ghost use Rattle.dsec_spec.specs.Records as records;
ghost use Rattle.dsec_rewrite.specs.Cutting.{Bounded, as_left, cut, cut_group};
ghost use Rattle.dsec_rewrite.specs.Rewriting.{left_by};

/// A group whose TTLs are cut has the same set: signatures over it are as good as before (RFC 4034 3.1.8.1).
#[tactic(auto, using(crate::proofs::CuttingLaws::same_set))]
pub fn law_of_cut_sets()
    ensures { (b : Bounded) → set_in (cut_group b) ≡ set_in b.group }
{}

/// A group whose TTLs were cut by a signature isn't cut again by it at that moment (RFC 4035 5.3.3).
#[tactic(auto, using(crate::proofs::CuttingLaws::nothing_left))]
pub fn law_of_cut_ttls()
    ensures { (g : grouping.Group) (signature : records.Record) (t bound : ℕ) → adjusted_ttl g (ttl_for_sig signature t) ≡ Some bound
        → adjusted_ttl (cut_group (record { group = g; bound = Some bound })) (ttl_for_sig (cut (Some bound) signature) t) ≡ None }
{}

/// A rewriting by groups without bounds and duplicates, as one leaves them, is none: the message stays as it is.
#[tactic(auto, using(crate::proofs::CuttingLaws::second_is_none))]
pub fn law_of_second_rewriting()
    ensures { (answers authorities : List Bounded) (made : List ℕ) → left_by made (map as_left answers) (map as_left authorities) ≡ Ok made }
{}
